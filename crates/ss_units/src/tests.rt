//! What no clause says.

ghost use Rattle.std.specs.Prelude.{◌≡◌, ◌∷◌, [], codes, IfOk};

use crate::UnitFault::{NotNumber, NotWhole, OutOfRange, UnknownUnit};
use crate::{Items, Text, bits_of, flit_time, period_of, ps_of, push_decimal, rate_of};
use std::alloc::{AllocError, Global};

fn crosses<T: Send + Sync + Drop>(_value: T) {}

#[test]
fn texts_and_lists_cross_threads(rt: HostRuntime) -> Result<(), AllocError> {
    let text = Text::new(rt.alloc(), "a")?;
    crosses(text.copy(rt.alloc())?);
    let mut names = Vec::new(rt.alloc());
    names.push(text)?;
    crosses(Items::from_vec(names));
    Ok(())
}

// A list of texts is a list of lists of bytes.
fn one_name(alloc: Global) -> Result<Items<Text>, AllocError>
    ensures { IfOk result (λ v. v ≡ codes "b" ∷ []) }
{
    let mut names = Vec::new(alloc);
    names.push(Text::from_string(String::from_str(alloc, "b")?))?;
    Ok(Items::from_vec(names))
}

#[test]
fn lists_of_texts(rt: HostRuntime) -> Result<(), AllocError> {
    let names = one_name(rt.alloc())?;
    assert_eq!(rt; names.as_slice().len(), 1);
    for name in names.into_vec() {
        assert_eq!(rt; name.as_str(), "b");
    }
    Ok(())
}

#[test]
fn texts_grow(rt: HostRuntime) -> Result<(), AllocError> {
    let mut text = Text::with_capacity(rt.alloc(), 0)?;
    assert_eq!(rt; text.as_str(), "");
    text.push_str(rt.alloc(), "")?;
    text.push_str(rt.alloc(), "a text of 20 bytes, ")?;
    assert_eq!(rt; text.as_str(), "a text of 20 bytes, ");
    text.push_str(rt.alloc(), "and then another 20.")?;
    assert_eq!(rt; text.as_str(), "a text of 20 bytes, and then another 20.");
    text.push_str(rt.alloc(), "!")?;
    assert_eq!(rt; text.as_str(), "a text of 20 bytes, and then another 20.!");
    text.push_str(rt.alloc(), " Long.")?;
    assert_eq!(rt;
        text.copy(rt.alloc())?.as_str(),
        "a text of 20 bytes, and then another 20.! Long."
    );
    Ok(())
}

#[test]
fn times(rt: HostRuntime) {
    for (text, want) in [
        ("1.5ns", Ok(1500)),
        ("0.5ps", Err(NotWhole)),
        ("5 parsecs", Err(UnknownUnit)),
        ("-1ns", Err(NotNumber)),
        ("5000000s", Err(OutOfRange)),
        ("1.ns", Err(UnknownUnit)),
        ("1000000000000000000000000ps", Err(UnknownUnit)),
        ("0ps", Ok(0)),
    ] {
        assert_eq!(rt; ps_of(text.as_bytes()), want, "at {text}");
    }
}

#[test]
fn periods(rt: HostRuntime) {
    for (text, want) in [
        ("3GHz", Ok(333)),
        ("1ns", Ok(1000)),
        ("0ps", Err(OutOfRange)),
        ("0.5 Hz", Err(NotWhole)),
    ] {
        assert_eq!(rt; period_of(text.as_bytes()), want, "at {text}");
    }
}

#[test]
fn sizes_and_rates(rt: HostRuntime) {
    assert_eq!(rt; bits_of(b"8B".as_slice()), Ok(64));
    assert_eq!(rt; bits_of(b"1KiB".as_slice()), Ok(8192));
    assert_eq!(rt; rate_of(b"8GB/s".as_slice()), Ok(64_000_000_000));
    assert_eq!(rt; flit_time(64, 3_000_000_000), Ok(21_334));
    assert_eq!(rt; flit_time(64, 64_000_000_000), Ok(1000));
    assert_eq!(rt; flit_time(0, 1), Err(OutOfRange));
}

#[test]
fn decimals(rt: HostRuntime) -> Result<(), AllocError> {
    let mut out = Vec::new(rt.alloc());
    push_decimal(&mut out, 36_893_488_147_419_103_230)?;
    assert_eq!(rt; out.as_slice(), b"36893488147419103230".as_slice());
    Ok(())
}
