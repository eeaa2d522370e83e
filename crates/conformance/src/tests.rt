// What is told of the block beside its own sheet and parents, and beside others.
use crate::table::Mesh;
use crate::verdict::Verdict;
use fault::Fault;
use place::Grid;
use sheet::Sheet;
use std::test::Fail;

const BLOCK: &[u8; 86] = b"\0\0\0\x52\x01\x01\0\0\0\x04\0\0\0\x04\
    \0\0\0\0\0\0\
    \0\x08\0\0\0\0\
    \0\0\0\x08\0\0\
    \0\0\0\0\0\x08\
    \0\0\0\0\0\0\0\x01\0\0\0\x02\
    \0\0\0\0\0\0\0\x02\0\0\0\x03\
    \0\0\0\0\0\0\0\x03\0\0\0\x01\
    \0\0\0\x01\0\0\0\x03\0\0\0\x02";

// Each vertex is its own parent.
const PARENTS: &[u8; 20] = b"\0\0\0\x10\0\0\0\0\0\0\0\x01\0\0\0\x02\0\0\0\x03";

// With a buffer of so many bytes.
fn verdict_within(room: usize, sheet: &[u8], parents: &[u8]) -> Result<Verdict, Fault> {
    let mut buffer = [7u8; 100];
    let block = Sheet::<Grid>::open(BLOCK)?;
    let buffer = buffer.get_mut(..room).unwrap_or(&mut []);
    Ok(Verdict::of(&block, Mesh { sheet, parents }, buffer))
}

fn verdict(sheet: &[u8], parents: &[u8]) -> Result<Verdict, Fault> {
    verdict_within(100, sheet, parents)
}

#[test]
fn same(rt: HostRuntime) -> Result<(), Fail> {
    assert_eq!(rt; verdict(BLOCK, PARENTS)?, Verdict::Same);
    assert_eq!(rt; verdict_within(86, BLOCK, PARENTS)?, Verdict::Same);
    Ok(())
}

#[test]
fn other_byte(rt: HostRuntime) -> Result<(), Fail> {
    let mut sheet = *BLOCK;
    sheet[85] = 1;
    assert_eq!(rt; verdict(&sheet, PARENTS)?, Verdict::Sheet(85));
    sheet[14] = 1;
    assert_eq!(rt; verdict(&sheet, PARENTS)?, Verdict::Sheet(14));
    // The sheet is told before the parents.
    assert_eq!(rt; verdict(&sheet, b"")?, Verdict::Sheet(14));
    Ok(())
}

#[test]
fn other_length(rt: HostRuntime) -> Result<(), Fail> {
    let mut longer = [0u8; 87];
    longer[..86].copy_from_slice(BLOCK);
    assert_eq!(rt; verdict(&longer, PARENTS)?, Verdict::Sheet(86));
    assert_eq!(rt; verdict(&BLOCK[..85], PARENTS)?, Verdict::Sheet(85));
    assert_eq!(rt; verdict(b"", PARENTS)?, Verdict::Sheet(0));
    // Nothing is written into a buffer that is too short.
    assert_eq!(rt; verdict_within(85, BLOCK, PARENTS)?, Verdict::Sheet(0));
    Ok(())
}

#[test]
fn other_parent(rt: HostRuntime) -> Result<(), Fail> {
    let mut parents = *PARENTS;
    parents[19] = 2;
    assert_eq!(rt; verdict(BLOCK, &parents)?, Verdict::Parent(3));
    parents[7] = 1;
    assert_eq!(rt; verdict(BLOCK, &parents)?, Verdict::Parent(0));
    // Numbers past the end of an item read as 0.
    assert_eq!(rt; verdict(BLOCK, &PARENTS[..4])?, Verdict::Parent(1));
    Ok(())
}
