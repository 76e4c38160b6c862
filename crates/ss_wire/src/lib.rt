//! Fields of bytes, one behind the other: numbers, high byte first, and bytes as they are. A field that was written is read
//! back, whatever follows it.
#![tactic(auto)]

ghost use Rattle.std.specs.Prelude.{◌≡◌, ◌≤◌, ◌<◌, ◌+◌, ◌^◌, ℕ, List, [], ◌++◌, length, drop, OnOk, OnErr, Ok};
ghost use Rattle.byteorder.specs.Endian.{big_bytes};
ghost use Rattle.ss_wire.specs.Wire.{Cursor, IsBytes, number, taken, Reads};

use byteorder::{BigEndian, ByteOrder};
use std::alloc::{AllocError, Global};
use std::marker::Model;
use thiserror::Error;

/// Fewer bytes are left than were asked for.
#[derive(Clone, Copy, Debug, PartialEq, Eq, Drop, Error)]
#[error("the bytes end within the field at {at}")]
pub struct Short {
    /// Where the field begins, in bytes from the start.
    pub at: u64,
}

/// Writes fields one behind the other. Contracts see it as the bytes written. Where no memory is left a call fails, and the
/// bytes written are as before.
#[derive(Drop)]
pub struct Writer {
    bytes: Vec<u8>,
}

impl Model for Writer {
    ghost use Rattle.std.specs.Prelude.{List, ℕ};

    ghost Value = { List ℕ };

    ghost view = { λ w. w.bytes.items };
}

impl Writer {
    /// A writer that has written nothing. It takes no memory.
    pub fn new(alloc: Global) -> Self
        ensures { result ≡ [] }
    {
        Writer {
            bytes: Vec::new(alloc),
        }
    }

    /// The bytes written.
    pub fn finish(self) -> Vec<u8>
        ensures { result.items ≡ self }
    {
        self.bytes
    }

    /// Writes bytes as they are.
    pub fn bytes(&mut self, b: &[u8]) -> Result<(), AllocError>
        ensures ok { OnOk result (self.new ≡ self.old ++ b.now) }
        ensures err { OnErr result (self.new ≡ self.old) }
    {
        self.bytes.extend_from_slice(b)?;
        Ok(())
    }

    /// Writes a number in 1 byte, high byte first.
    pub fn u8(&mut self, n: u8) -> Result<(), AllocError>
        ensures ok { OnOk result (self.new ≡ self.old ++ big_bytes 1 n) }
        ensures err { OnErr result (self.new ≡ self.old) }
    {
        self.bytes(&[n])
    }

    /// Writes a number in 2 bytes, high byte first.
    pub fn u16(&mut self, n: u16) -> Result<(), AllocError>
        ensures ok { OnOk result (self.new ≡ self.old ++ big_bytes 2 n) }
        ensures err { OnErr result (self.new ≡ self.old) }
    {
        let mut field = [0u8; 2];
        BigEndian::write_u16(&mut field, n);
        self.bytes(&field)
    }

    /// Writes a number in 4 bytes, high byte first.
    pub fn u32(&mut self, n: u32) -> Result<(), AllocError>
        ensures ok { OnOk result (self.new ≡ self.old ++ big_bytes 4 n) }
        ensures err { OnErr result (self.new ≡ self.old) }
    {
        let mut field = [0u8; 4];
        BigEndian::write_u32(&mut field, n);
        self.bytes(&field)
    }

    /// Writes a number in 8 bytes, high byte first.
    pub fn u64(&mut self, n: u64) -> Result<(), AllocError>
        ensures ok { OnOk result (self.new ≡ self.old ++ big_bytes 8 n) }
        ensures err { OnErr result (self.new ≡ self.old) }
    {
        let mut field = [0u8; 8];
        BigEndian::write_u64(&mut field, n);
        self.bytes(&field)
    }

    /// Writes a number in 16 bytes, high byte first.
    pub fn u128(&mut self, n: u128) -> Result<(), AllocError>
        ensures ok { OnOk result (self.new ≡ self.old ++ big_bytes 16 n) }
        ensures err { OnErr result (self.new ≡ self.old) }
    {
        let mut field = [0u8; 16];
        BigEndian::write_u128(&mut field, n);
        self.bytes(&field)
    }
}

/// Reads fields one behind the other. Contracts see it as the bytes that are left and how many were passed. A call answers
/// `Short` exactly where fewer bytes are left than it asks for, and the reader is then unchanged. It takes no memory.
#[derive(Drop)]
pub struct Reader<'a> {
    bytes: &'a [u8],
    at: usize,
}

impl<'a> Model for Reader<'a> {
    ghost use Rattle.std.specs.Prelude.{◌≤◌, length, drop};
    ghost use Rattle.ss_wire.specs.Wire.{Cursor};

    ghost Value = { Cursor };

    ghost view = { λ r. record { rest = drop r.at r.bytes.now; at = r.at } };

    ghost invariant = { λ r. r.at ≤ length r.bytes.now };
}

impl<'a> Reader<'a> {
    /// A reader of `bytes` that stands at `at`.
    pub fn new(bytes: &'a [u8], at: usize) -> Reader<'a>
        requires { at ≤ length bytes.now }
        ensures rest { result.rest ≡ drop at bytes.now }
        ensures at { result.at ≡ at }
    {
        Reader { bytes, at }
    }

    /// How many bytes lie before it, from the start of the bytes that it was made with.
    pub fn at(&self) -> u64
        ensures { result ≡ self.now.at }
    {
        self.at as u64
    }

    /// Reads the next `n` bytes as they are.
    pub fn take(&mut self, n: usize) -> Result<&'a [u8], Short>
        ensures { Reads (λ b. b.now) result self.old self.new (taken n self.old) }
    {
        if self.bytes.len() - self.at < n {
            return Err(Short { at: self.at as u64 });
        }
        let field = &self.bytes[self.at..self.at + n];
        self.at += n;
        Ok(field)
    }

    /// Reads a number of 1 byte, high byte first.
    pub fn u8(&mut self) -> Result<u8, Short>
        ensures { Reads (λ n. n) result self.old self.new (number 1 self.old) }
    {
        let field = self.take(1)?;
        Ok(field[0])
    }

    /// Reads a number of 2 bytes, high byte first.
    pub fn u16(&mut self) -> Result<u16, Short>
        ensures { Reads (λ n. n) result self.old self.new (number 2 self.old) }
    {
        let field = self.take(2)?;
        Ok(BigEndian::read_u16(field))
    }

    /// Reads a number of 4 bytes, high byte first.
    pub fn u32(&mut self) -> Result<u32, Short>
        ensures { Reads (λ n. n) result self.old self.new (number 4 self.old) }
    {
        let field = self.take(4)?;
        Ok(BigEndian::read_u32(field))
    }

    /// Reads a number of 8 bytes, high byte first.
    pub fn u64(&mut self) -> Result<u64, Short>
        ensures { Reads (λ n. n) result self.old self.new (number 8 self.old) }
    {
        let field = self.take(8)?;
        Ok(BigEndian::read_u64(field))
    }

    /// Reads a number of 16 bytes, high byte first.
    pub fn u128(&mut self) -> Result<u128, Short>
        ensures { Reads (λ n. n) result self.old self.new (number 16 self.old) }
    {
        let field = self.take(16)?;
        Ok(BigEndian::read_u128(field))
    }
}

/// A law: a number that was written in `k` bytes is read back, whatever follows it.
pub fn numbers_are_read_back()
    ensures { (k n at : ℕ) (rest : List ℕ) → n < 256 ^ k → number k (record { rest = big_bytes k n ++ rest; at = at }) ≡ Ok (n, record { rest = rest; at = at + k }) }
{}

/// A law: bytes that were written as they are are read back, whatever follows them.
pub fn bytes_are_read_back()
    ensures { (b rest : List ℕ) (at : ℕ) → taken (length b) (record { rest = b ++ rest; at = at }) ≡ Ok (b, record { rest = rest; at = at + length b }) }
{}

/// A law: a number that is read from bytes was written so, and no other way of writing it is read.
pub fn numbers_have_one_spelling()
    ensures { (k n : ℕ) (old new : Cursor) → IsBytes old.rest → number k old ≡ Ok (n, new) → (old.rest ≡ big_bytes k n ++ new.rest) × (n < 256 ^ k) }
{}

#[cfg(test)]
mod tests;
