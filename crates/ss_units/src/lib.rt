//! Texts, lists, quantities with units, and decimal digits.
#![tactic(auto)]

ghost use Rattle.std.specs.Prelude.{◌≡◌, ◌++◌, decimal, OnOk, OnErr};

mod text;
mod units;

use itoa::Buffer;
use std::alloc::{AllocError, Global};
use std::marker::Model;
pub use text::Text;
pub use units::{UnitFault, bits_of, flit_time, period_of, ps_of, rate_of};

/// A list of values, which contracts see as the list of its items.
#[derive(Drop)]
pub struct Items<T> {
    inner: Vec<T>,
}

impl<T> Model for Items<T> {
    ghost use Rattle.std.specs.Prelude.{List};

    ghost Value = { List T };

    ghost view = { λ s. s.inner.items };
}

impl<T> Items<T> {
    /// The list of a vector's items. It takes no memory.
    pub fn from_vec(inner: Vec<T>) -> Items<T>
        ensures { result ≡ inner.items }
    {
        Items { inner }
    }

    /// The vector of the list's items. It takes no memory.
    pub fn into_vec(self) -> Vec<T>
        ensures { result.items ≡ self }
    {
        self.inner
    }

    /// The items, in order.
    pub fn as_slice(&self) -> &[T]
        ensures { result.now ≡ self.now }
    {
        self.inner.as_slice()
    }
}

#[cfg(test)]
mod tests;

/// Appends a number's decimal digits, with no sign and no leading zero. Where no memory is left it fails, and `out` is as before.
pub fn push_decimal(out: &mut Vec<u8>, n: u128) -> Result<(), AllocError>
    ensures ok { OnOk result (out.new.items ≡ out.old.items ++ decimal n) }
    ensures err { OnErr result (out.new.items ≡ out.old.items) }
{
    let mut buffer = Buffer::new();
    out.extend_from_slice(buffer.format(n).as_bytes())
}
