// Writing records of the grid, each refusal at its edge.
use crate::*;
use fault::Fault;
use place::Grid;

const MARKS: [u8; 6] = [1, 0, 0, 1, 0, 0];

const CODES: [u8; 2] = [2, 0];

fn write(marks: &[u8], codes: &[u8], displacements: &[u8], out: &mut [u8]) -> Result<usize, Fault> {
    let parts = Parts {
        marks,
        codes,
        displacements,
    };
    parts.write::<Grid>(out)
}

// Whether the writer refused with this number and spot.
fn refused(answer: Result<usize, Fault>, number: u8, spot: u32) -> bool {
    answer.is_err_and(|fault| fault.number() == number && fault.spot() == spot)
}

#[test]
fn writes_the_block(rt: HostRuntime) {
    let mut out = [7u8; 38];
    assert_eq!(rt; write(&MARKS, &CODES, &[5; 24], &mut out), Ok(36));
    assert!(rt; out[..12] == [0, 0, 0, 32, 1, 1, 0, 0, 0, 2, 0x90, 0x80]);
    assert!(rt; out[12..36] == [5; 24]);
    assert!(rt; out[36..] == [7, 7]);
}

#[test]
fn refuses_a_short_buffer(rt: HostRuntime) {
    let mut out = [7u8; 35];
    assert!(rt; refused(write(&MARKS, &CODES, &[5; 24], &mut out), 9, 36));
    assert!(rt; out[..] == [7; 35]);
}

#[test]
fn refuses_values(rt: HostRuntime) {
    let mut out = [0u8; 36];
    assert!(rt;
        refused(
            write(&[1, 0, 0, 2, 0, 0], &[9, 0], &[0; 24], &mut out),
            7,
            3,
        )
    );
    assert!(rt; refused(write(&MARKS, &[3, 4], &[0; 24], &mut out), 7, 1));
    assert_eq!(rt; write(&MARKS, &[3, 3], &[0; 24], &mut out), Ok(36));
    assert!(rt; refused(write(&MARKS, &[3, 4], &[0; 24], &mut []), 7, 1));
}

#[test]
fn refuses_parts(rt: HostRuntime) {
    let mut out = [0u8; 36];
    assert!(rt; refused(write(&MARKS, &CODES, &[0; 23], &mut out), 8, 0));
    assert!(rt; refused(write(&MARKS, &CODES, &[0; 25], &mut out), 8, 0));
    assert!(rt; refused(write(&[1, 0, 0, 1, 0, 2], &[9], &[0; 24], &mut out), 8, 0));
    assert!(rt; refused(write(&[2], &[9], &[0; 12], &mut out), 7, 0));
}

#[test]
fn refuses_too_many(rt: HostRuntime) {
    let mut out = [0u8; 14_346];
    assert!(rt; refused(write(&[0; 49_153], &[], &[], &mut out), 8, 0));
    assert!(rt; refused(write(&[], &[0; 32_769], &[], &mut out), 8, 0));
    assert_eq!(rt;
        write(&[0; 49_152], &[0; 32_768], &[], &mut out),
        Ok(14_346)
    );
}
