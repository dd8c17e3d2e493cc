// Numbers of each width.
use crate::{number, put};
use std::process::Abort;
use std::test::Fail;

#[test]
fn the_lowest_byte_comes_first(rt: HostRuntime) -> Result<(), Fail> {
    let bytes: [u8; 6] = [0xFF, 0x01, 0x23, 0x45, 0x67, 0xFF];
    let rows: [(u32, u32); 4] = [(1, 0x01), (2, 0x2301), (3, 0x0045_2301), (4, 0x6745_2301)];
    for (width, value) in &rows {
        assert_eq!(rt; number(&bytes, 1, *width), *value, "{width}");
    }
    Ok(())
}

#[test]
fn the_low_bytes_are_put_and_no_others(rt: HostRuntime) -> Result<(), Fail> {
    let rows: [(u32, [u8; 6]); 4] = [
        (1, [0, 0x01, 0, 0, 0, 0]),
        (2, [0, 0x01, 0x23, 0, 0, 0]),
        (3, [0, 0x01, 0x23, 0x45, 0, 0]),
        (4, [0, 0x01, 0x23, 0x45, 0x67, 0]),
    ];
    for (width, after) in &rows {
        let mut bytes: [u8; 6] = [0; 6];
        put(&mut bytes, 1, *width, 0x6745_2301);
        assert_eq!(rt; bytes, *after, "{width}");
    }
    Ok(())
}
