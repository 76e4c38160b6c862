//! Words of 0 that are known from elsewhere.

use crate::word;

#[test]
fn words_of_zero(rt: HostRuntime) {
    assert_eq!(rt; word(0, 0), 0xe220_a839_7b1d_cdaf);
    assert_eq!(rt; word(0, 1), 0x6e78_9e6a_a1b9_65f4);
}
