// Records of the grid, each refusal at its edge.
use crate::*;
use place::Grid;

// Marks 0 and 3 of six edges, the codes 2 and 0, and four displacements of 0.
fn block() -> [u8; 36] {
    let mut bytes = [0; 36];
    bytes[..12].copy_from_slice(&[0, 0, 0, 32, 1, 1, 0, 0, 0, 2, 0x90, 0x80]);
    bytes
}

// The block's record with another byte at `i`.
fn with_byte(i: usize, byte: u8) -> [u8; 36] {
    let mut bytes = block();
    if i < 36 {
        bytes[i] = byte;
    }
    bytes
}

// A byte of the block's record that is changed, and what the layout call then tells: number 0 where it accepts.
#[derive(Clone, Copy)]
struct Case {
    at: usize,
    byte: u8,
    number: u8,
    spot: u32,
}

const fn changed(at: usize, byte: u8, number: u8, spot: u32) -> Case {
    Case {
        at,
        byte,
        number,
        spot,
    }
}

fn tells(bytes: &[u8], edges: u32, number: u8, spot: u32) -> bool {
    match (Record { bytes, edges }).check_layout::<Grid>() {
        Ok(()) => number == 0,
        Err(fault) => fault.number() == number && fault.spot() == spot,
    }
}

// Whether the layout hands out these three, and then no more.
fn hands_out(
    bytes: &[u8],
    edges: u32,
    marks: &[u8],
    codes: (&[u8], u32),
    displacements: (&[u8], u32),
) -> bool {
    let Ok(mut layout) = Layout::open::<Grid>(bytes, edges) else {
        return false;
    };
    layout.next() == Some(Stretch::Marks(marks, 10))
        && layout.next() == Some(Stretch::Codes(codes.0, codes.1))
        && layout.next() == Some(Stretch::Displacements(displacements.0, displacements.1))
        && layout.next().is_none()
        && layout.next().is_none()
}

#[test]
fn hands_out_the_stretches(rt: HostRuntime) {
    assert!(rt; hands_out(&block(), 6, &[0x90], (&[0x80], 11), (&[0; 24], 12)));
}

#[test]
fn empty_stretches_have_offsets(rt: HostRuntime) {
    assert!(rt;
        hands_out(
            &[0, 0, 0, 6, 1, 1, 0, 0, 0, 0],
            0,
            &[],
            (&[], 10),
            (&[], 10),
        )
    );
}

#[test]
fn tells_a_changed_byte(rt: HostRuntime) {
    let cases = [
        changed(0, 255, 20, 0),
        changed(3, 31, 20, 0),
        changed(3, 32, 0, 0),
        changed(3, 33, 20, 0),
        changed(4, 0, 21, 4),
        changed(4, 2, 21, 4),
        changed(5, 0, 22, 5),
        changed(5, 2, 22, 5),
        changed(6, 255, 29, 0),
        changed(9, 0, 29, 0),
        changed(9, 4, 0, 0),
        changed(9, 5, 29, 0),
        changed(10, 0x80, 29, 0),
        changed(10, 0x84, 0, 0),
        changed(10, 0x91, 24, 10),
        changed(10, 0x92, 24, 10),
        changed(10, 0x94, 29, 0),
        changed(11, 0x81, 30, 11),
        changed(11, 0x88, 30, 11),
        changed(11, 0x90, 0, 0),
    ];
    for c in &cases {
        assert!(rt; tells(&with_byte(c.at, c.byte), 6, c.number, c.spot));
    }
}

#[test]
fn tells_a_short_head(rt: HostRuntime) {
    assert!(rt; tells(&[], 0, 20, 0));
    assert!(rt; tells(&[0, 0, 0, 5, 1, 1, 0, 0, 0], 0, 20, 0));
    assert!(rt; tells(&[0, 0, 0, 6, 1, 1, 0, 0, 0, 0], 0, 0, 0));
}

#[test]
fn tells_too_many_edges(rt: HostRuntime) {
    assert!(rt; tells(&block(), 208, 29, 0));
    assert!(rt; tells(&block(), 209, 23, 0));
    assert!(rt; tells(&block(), 49_153, 23, 0));
    assert!(rt; tells(&block(), u32::MAX, 23, 0));
}

#[test]
fn reads_marks(rt: HostRuntime) {
    assert_eq!(rt; mark_at(&[0x90], 0), Some(true));
    assert_eq!(rt; mark_at(&[0x90], 1), Some(false));
    assert_eq!(rt; mark_at(&[0x90], 8), None);
    assert_eq!(rt; mark_at(&[0, 0x80], 8), Some(true));
    assert_eq!(rt; count_marks(&[0xff, 0x80], 9), 9);
}

#[test]
fn reads_codes(rt: HostRuntime) {
    assert_eq!(rt; code_at(&[0x1b], 0), Some(0));
    assert_eq!(rt; code_at(&[0x1b], 1), Some(1));
    assert_eq!(rt; code_at(&[0x1b], 2), Some(2));
    assert_eq!(rt; code_at(&[0x1b], 3), Some(3));
    assert_eq!(rt; code_at(&[0x1b], 4), None);
}
