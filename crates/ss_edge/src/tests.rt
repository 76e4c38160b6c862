//! Calls that succeed and calls that are listed to fail.

use crate::{Failed, MemShelf, MemSink, Shelf, Sink, write_all};
use ss_units::Text;
use std::alloc::{AllocError, Global};

fn shelf(alloc: Global) -> Result<MemShelf, AllocError> {
    let mut entries = Vec::new(alloc);
    entries.push((
        Text::new(alloc, "a")?,
        Vec::from_slice(alloc, b"hello".as_slice())?,
    ))?;
    let mut fails = Vec::new(alloc);
    fails.push((2, 3))?;
    fails.push((4, u64::MAX))?;
    MemShelf::new(alloc, entries, fails)
}

fn holds(shelf: &MemShelf, name: &str, bytes: &[u8]) -> bool {
    match shelf.entry(name) {
        Some(entry) => entry == bytes,
        None => false,
    }
}

#[test]
fn reads_and_puts(rt: HostRuntime) -> Result<(), AllocError> {
    let mut shelf = shelf(rt.alloc())?;
    let mut buf = [0u8; 2];
    assert_eq!(rt; shelf.read_at("a", 1, &mut buf), Ok(2));
    assert_eq!(rt; buf.as_slice(), b"el".as_slice());
    assert_eq!(rt; shelf.read_at("b", 0, &mut buf), Err(Failed));
    assert_eq!(rt; shelf.put("b", b"world".as_slice()), Err(Failed));
    assert!(rt; holds(&shelf, "b", b"wor".as_slice()));
    assert_eq!(rt; shelf.put("b", b"x".as_slice()), Ok(()));
    assert_eq!(rt; shelf.put("b", b"yy".as_slice()), Err(Failed));
    assert!(rt; holds(&shelf, "b", b"x".as_slice()));
    assert_eq!(rt; shelf.read_at("a", 5, &mut buf), Ok(0));
    assert!(rt; shelf.entry("c").is_none());
    assert_eq!(rt; shelf.starved(), 0);
    Ok(())
}

#[test]
fn writes(rt: HostRuntime) -> Result<(), AllocError> {
    let mut fails = Vec::new(rt.alloc());
    fails.push(1)?;
    let mut sink = MemSink::new(rt.alloc(), 2, fails);
    assert_eq!(rt; sink.write(b"abc".as_slice()), Ok(2));
    assert_eq!(rt; sink.write(b"c".as_slice()), Err(Failed));
    assert_eq!(rt; write_all(&mut sink, b"cdefg".as_slice()), Ok(()));
    assert_eq!(rt; sink.bytes(), b"abcdefg".as_slice());
    assert_eq!(rt; sink.starved(), 0);
    Ok(())
}
