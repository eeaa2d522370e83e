// Sheets that are written again from the surface that they open as.
use crate::sheet::Sheet;
use crate::writing::write_sheet;
use place::Grid;

// The sheet of the block with the corners (0,0,0), (8,0,0), (0,8,0) and (0,0,8).
const BLOCK: &[u8; 86] = b"\0\0\0\x52\x01\x01\0\0\0\x04\0\0\0\x04\
    \0\0\0\0\0\0\
    \0\x08\0\0\0\0\
    \0\0\0\x08\0\0\
    \0\0\0\0\0\x08\
    \0\0\0\0\0\0\0\x01\0\0\0\x02\
    \0\0\0\0\0\0\0\x02\0\0\0\x03\
    \0\0\0\0\0\0\0\x03\0\0\0\x01\
    \0\0\0\x01\0\0\0\x03\0\0\0\x02";

// How many bytes are written, or the number of the refusal behind a thousand.
fn written(sheet: &[u8], out: &mut [u8]) -> usize {
    match Sheet::<Grid>::open(sheet) {
        Ok(surface) => match write_sheet(&surface, out) {
            Ok(size) => size,
            Err(fault) => 1000 + usize::from(fault.number()),
        },
        Err(_) => 0,
    }
}

#[test]
fn block_again(rt: HostRuntime) {
    let mut out = [7u8; 88];
    assert_eq!(rt; written(BLOCK, &mut out), 86);
    assert!(rt; &out[0..86] == BLOCK.as_slice());
    assert_eq!(rt; out[86], 7);
    assert_eq!(rt; out[87], 7);
}

#[test]
fn buffer_too_short(rt: HostRuntime) {
    let mut out = [7u8; 85];
    assert_eq!(rt; written(BLOCK, &mut out), 1009);
    assert!(rt; out == [7u8; 85]);
}
