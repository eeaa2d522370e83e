// Whole inputs, and what is printed of each.
use crate::play::play;
use std::io::Read;
use std::test::Fail;

const BLOCK: &[u8; 86] = b"\0\0\0\x52\x01\x01\0\0\0\x04\0\0\0\x04\
    \0\0\0\0\0\0\
    \0\x08\0\0\0\0\
    \0\0\0\x08\0\0\
    \0\0\0\0\0\x08\
    \0\0\0\0\0\0\0\x01\0\0\0\x02\
    \0\0\0\0\0\0\0\x02\0\0\0\x03\
    \0\0\0\0\0\0\0\x03\0\0\0\x01\
    \0\0\0\x01\0\0\0\x03\0\0\0\x02";

// Two blocks that share vertex 0.
const PAIR: &[u8; 152] = b"\0\0\0\x94\x01\x01\0\0\0\x07\0\0\0\x08\
    \0\0\0\0\0\0\
    \0\x08\0\0\0\0\
    \0\0\0\x08\0\0\
    \0\0\0\0\0\x08\
    \0\x09\0\0\0\0\
    \0\0\0\x09\0\0\
    \0\0\0\0\0\x09\
    \0\0\0\0\0\0\0\x01\0\0\0\x02\
    \0\0\0\0\0\0\0\x02\0\0\0\x03\
    \0\0\0\0\0\0\0\x03\0\0\0\x01\
    \0\0\0\x01\0\0\0\x03\0\0\0\x02\
    \0\0\0\0\0\0\0\x04\0\0\0\x05\
    \0\0\0\0\0\0\0\x05\0\0\0\x06\
    \0\0\0\0\0\0\0\x06\0\0\0\x04\
    \0\0\0\x04\0\0\0\x06\0\0\0\x05";

// What is printed more than once.
const CUT_SHORT: &str = "REFUSED 0 10 2 0\nTOTAL 0 0 0\n";

const BAD_CORNERS: &str = "REFUSED 0 16 3 0\nTOTAL 0 0 0\n";

const UNKNOWN_VERSION: &str = "REFUSED 0 11 2 4\nTOTAL 0 0 0\n";

const BLOCK_ALONE: &str = "BASE 4 6 4\nTOTAL 0 0 0\n";

const RECORD_CUT_SHORT: &str = "BASE 4 6 4\nREFUSED 1 20 2 0\nTOTAL 0 0 0\n";

// The record with these marks and two codes, all displacements 0.
fn record(marks: u8, codes: u8) -> [u8; 36] {
    let mut bytes = [0u8; 36];
    bytes[3] = 32;
    bytes[4] = 1;
    bytes[5] = 1;
    bytes[9] = 2;
    bytes[10] = marks;
    bytes[11] = codes;
    bytes
}

// The head of a grid sheet (or, with no counts, of a record), with zeros behind it.
fn head(follows: u32, vertices: u32, triangles: u32) -> [u8; 8200] {
    let mut bytes = [0u8; 8200];
    bytes[0..4].copy_from_slice(&follows.to_be_bytes());
    bytes[4] = 1;
    bytes[5] = 1;
    bytes[6..10].copy_from_slice(&vertices.to_be_bytes());
    bytes[10..14].copy_from_slice(&triangles.to_be_bytes());
    bytes
}

fn front(bytes: &[u8], size: usize) -> &[u8] {
    bytes.get(..size).unwrap_or(bytes)
}

// Whether these lines are printed of an input of these two pieces.
fn prints(rt: &HostRuntime, sheet: &[u8], records: &[u8], lines: &str) -> Result<bool, Fail> {
    let mut output = Vec::new(rt.alloc());
    play(&mut sheet.chain(records), &mut output)?;
    Ok(output.as_slice() == lines.as_bytes())
}

#[test]
fn bases(rt: HostRuntime) -> Result<(), Fail> {
    assert!(rt; prints(&rt, b"", b"", CUT_SHORT)?);
    assert!(rt; prints(&rt, b"\0\0\0", b"", CUT_SHORT)?);
    assert!(rt; prints(&rt, &BLOCK[..85], b"", CUT_SHORT)?);
    assert!(rt; prints(&rt, BLOCK, b"", BLOCK_ALONE)?);
    let cornerless = head(82, 4, 4);
    assert!(rt; prints(&rt, front(&cornerless, 85), b"", CUT_SHORT)?);
    assert!(rt; prints(&rt, front(&cornerless, 86), b"", BAD_CORNERS)?);
    assert!(rt; prints(&rt, PAIR, b"", "REFUSED 0 19 3 0\nTOTAL 0 0 0\n")?);
    let mut another = *BLOCK;
    another[4] = 2;
    assert!(rt; prints(&rt, &another, b"", UNKNOWN_VERSION)?);
    assert!(rt; prints(&rt, &another, &record(0x90, 0x80), UNKNOWN_VERSION)?);
    Ok(())
}

#[test]
fn limits_of_bases(rt: HostRuntime) -> Result<(), Fail> {
    let longest = head(8188, 3, 2);
    assert!(rt;
        prints(
            &rt,
            front(&longest, 8192),
            b"",
            "REFUSED 0 14 2 0\nTOTAL 0 0 0\n"
        )?
    );
    let longer = head(8189, 3, 2);
    assert!(rt; prints(&rt, front(&longer, 8193), b"", CUT_SHORT)?);
    let vertices = head(1576, 257, 2);
    assert!(rt; prints(&rt, &vertices, b"", "REFUSED 0 5 1 0\nTOTAL 0 0 0\n")?);
    let triangles = head(7702, 256, 513);
    assert!(rt; prints(&rt, &triangles, b"", "REFUSED 0 6 1 0\nTOTAL 0 0 0\n")?);
    let full = head(7690, 256, 512);
    assert!(rt; prints(&rt, front(&full, 7694), b"", BAD_CORNERS)?);
    assert!(rt; prints(&rt, &full, b"", BAD_CORNERS)?);
    Ok(())
}

#[test]
fn records(rt: HostRuntime) -> Result<(), Fail> {
    let split = record(0x90, 0x80);
    assert!(rt;
        prints(
            &rt,
            BLOCK,
            &split,
            "BASE 4 6 4\nSPLIT 1 5 9 6 2 1\nTOTAL 1 2 1\n"
        )?
    );
    let ringed = record(0xD0, 0x80);
    assert!(rt;
        prints(
            &rt,
            BLOCK,
            &ringed,
            "BASE 4 6 4\nREFUSED 1 26 3 3\nTOTAL 0 0 0\n"
        )?
    );
    let mut below = split;
    below[34] = 0xFF;
    below[35] = 0xFF;
    assert!(rt;
        prints(
            &rt,
            BLOCK,
            &below,
            "BASE 4 6 4\nREFUSED 1 34 5 4\nTOTAL 0 0 0\n"
        )?
    );
    let mut later = [0u8; 40];
    later[4..40].copy_from_slice(&split);
    let lines = "BASE 4 6 4\nREFUSED 1 20 2 0\nSPLIT 2 5 9 6 2 1\nTOTAL 1 2 1\n";
    assert!(rt; prints(&rt, BLOCK, &later, lines)?);
    Ok(())
}

#[test]
fn limits_of_records(rt: HostRuntime) -> Result<(), Fail> {
    assert!(rt; prints(&rt, BLOCK, b"\0\0", RECORD_CUT_SHORT)?);
    assert!(rt; prints(&rt, BLOCK, front(&record(0x90, 0x80), 35), RECORD_CUT_SHORT)?);
    let longest = head(8188, 0, 0);
    assert!(rt;
        prints(
            &rt,
            BLOCK,
            front(&longest, 8192),
            "BASE 4 6 4\nREFUSED 1 25 3 0\nTOTAL 0 0 0\n"
        )?
    );
    let longer = head(8189, 0, 0);
    assert!(rt; prints(&rt, BLOCK, front(&longer, 8193), RECORD_CUT_SHORT)?);
    Ok(())
}
