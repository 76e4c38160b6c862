//! What no clause says.

use crate::{Accumulator, Histogram, Stat, StatSet, csv_head, csv_rows};
use std::alloc::{AllocError, Global};

fn crosses<T: Send + Sync + Drop>(_value: T) {}

#[test]
fn sets_cross_threads(rt: HostRuntime) {
    crosses(StatSet::new(rt.alloc()));
}

#[test]
fn greatest_values_twice(rt: HostRuntime) {
    let mut accumulator = Accumulator::new();
    accumulator.add(u64::MAX);
    accumulator.add(u64::MAX);
    assert_eq!(rt; accumulator.count, 2);
    assert_eq!(rt; accumulator.sum, 36_893_488_147_419_103_230);
    assert_eq!(rt;
        accumulator.sumsq,
        340_282_366_920_938_463_463_374_607_431_768_211_455
    );
    assert_eq!(rt; accumulator.least, u64::MAX);
    assert_eq!(rt; accumulator.greatest, u64::MAX);
}

#[test]
fn values_about_two_bins(rt: HostRuntime) -> Result<(), AllocError> {
    let mut histogram = Histogram::new(rt.alloc(), 10, 5, 2)?;
    for v in [9, 10, 19, 20] {
        histogram.add(v);
    }
    assert_eq!(rt; histogram.count(), 4);
    assert_eq!(rt; histogram.below(), 1);
    assert_eq!(rt; histogram.above(), 1);
    let mut set = StatSet::new(rt.alloc());
    set.push(b"waits", Stat::Histogram(histogram))?;
    let mut out = Vec::new(rt.alloc());
    csv_rows(b"a", &set, &mut out)?;
    let want =
        "a,waits,count,4\na,waits,below,1\na,waits,above,1\na,waits,bin0,1\na,waits,bin1,1\n";
    assert_eq!(rt; out.as_slice(), want.as_bytes());
    Ok(())
}

// A set of one accumulator that was given 2000 three times.
fn roundtrips(alloc: Global) -> Result<StatSet, AllocError> {
    let mut set = StatSet::new(alloc);
    set.push(b"roundtrip", Stat::Accumulator(Accumulator::new()))?;
    set.add(0, 2000);
    set.add(0, 2000);
    set.add(0, 2000);
    Ok(set)
}

#[test]
fn rows_of_an_accumulator(rt: HostRuntime) -> Result<(), AllocError> {
    let set = roundtrips(rt.alloc())?;
    let mut out = Vec::new(rt.alloc());
    csv_head(&mut out)?;
    csv_rows(b"ping", &set, &mut out)?;
    let want =
        "component,statistic,field,value\nping,roundtrip,count,3\nping,roundtrip,sum,6000\nping,roundtrip,sumsq,12000000\nping,roundtrip,min,2000\nping,roundtrip,max,2000\n";
    assert_eq!(rt; out.as_slice(), want.as_bytes());
    Ok(())
}

#[test]
fn names_in_quotes(rt: HostRuntime) -> Result<(), AllocError> {
    let set = roundtrips(rt.alloc())?;
    for (name, first) in [
        ("a,b", "\"a,b\",roundtrip,count,3\n"),
        ("a\"b", "\"a\"\"b\",roundtrip,count,3\n"),
        ("a\nb", "\"a\nb\",roundtrip,count,3\n"),
        ("a b", "a b,roundtrip,count,3\n"),
    ] {
        let mut out = Vec::new(rt.alloc());
        csv_rows(name.as_bytes(), &set, &mut out)?;
        assert!(rt; out.as_slice().starts_with(first.as_bytes()), "at {name}");
    }
    Ok(())
}

#[test]
fn first_of_two_names(rt: HostRuntime) -> Result<(), AllocError> {
    let mut set = StatSet::new(rt.alloc());
    for name in ["sent", "received", "sent"] {
        set.push(name.as_bytes(), Stat::Accumulator(Accumulator::new()))?;
    }
    assert_eq!(rt; set.find(b"sent"), Some(0));
    assert_eq!(rt; set.find(b"received"), Some(1));
    assert_eq!(rt; set.find(b"queue"), None);
    Ok(())
}
