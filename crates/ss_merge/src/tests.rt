//! Lists with and without lines.

use crate::merge_lines;
use ss_model::{Key, Line};
use ss_units::Text;
use std::alloc::{AllocError, Global};

fn line(alloc: Global, time: u64, line: u32, text: &str) -> Result<Line, AllocError> {
    let key = Key {
        time,
        class: 1,
        line,
    };
    Ok(Line {
        key,
        text: Text::new(alloc, text)?,
    })
}

#[test]
fn lines_of_two_parts(rt: HostRuntime) -> Result<(), AllocError> {
    let alloc = rt.alloc();
    let mut first = Vec::new(alloc);
    first.push(line(alloc, 5, 0, "b")?)?;
    first.push(line(alloc, 5, 0, "c")?)?;
    first.push(line(alloc, 9, 0, "e")?)?;
    let mut second = Vec::new(alloc);
    second.push(line(alloc, 3, 1, "a")?)?;
    second.push(line(alloc, 5, 1, "d")?)?;
    let mut parts = Vec::new(alloc);
    parts.push(first)?;
    parts.push(Vec::new(alloc))?;
    parts.push(second)?;
    let lines = merge_lines(alloc, parts)?;
    let mut all = String::new(alloc);
    for line in &lines {
        all.push_str(line.text.as_str())?;
    }
    assert_eq!(rt; all.as_str(), "abcde");
    Ok(())
}
