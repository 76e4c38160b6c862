//! Fields that are written and read, and bytes that end too early.

use crate::{Reader, Short, Writer};
use std::alloc::AllocError;

#[test]
fn round_trip(rt: HostRuntime) -> Result<(), AllocError> {
    let mut writer = Writer::new(rt.alloc());
    writer.u8(7)?;
    writer.u16(0x0102)?;
    writer.u32(264)?;
    writer.u64(5000)?;
    writer.u128(1)?;
    writer.bytes(b"ab".as_slice())?;
    let bytes = writer.finish();
    assert_eq!(rt; &bytes[..7], b"\x07\x01\x02\x00\x00\x01\x08".as_slice());
    let mut reader = Reader::new(bytes.as_slice(), 0);
    assert_eq!(rt; reader.u8(), Ok(7));
    assert_eq!(rt; reader.u16(), Ok(0x0102));
    assert_eq!(rt; reader.u32(), Ok(264));
    assert_eq!(rt; reader.u64(), Ok(5000));
    assert_eq!(rt; reader.u128(), Ok(1));
    assert_eq!(rt; reader.at(), 31);
    assert_eq!(rt; reader.u32(), Err(Short { at: 31 }));
    assert!(rt; matches!(reader.take(3), Err(Short { at: 31 })));
    assert!(rt; matches!(reader.take(2), Ok(b"ab")));
    assert_eq!(rt; reader.u8(), Err(Short { at: 33 }));
    Ok(())
}
