// The refusals, each by a name of its own and in plain words.
use thiserror::Error;

// The two counts of a sheet.
#[derive(Clone, Copy, PartialEq, Eq, Debug, Error)]
pub enum Count {
    #[error("number of vertices")]
    Vertices,
    #[error("number of triangles")]
    Triangles,
}

// A case for each refusal, in the order of their numbers from 1 to 34. What a case holds is where the fault lies, or
// how many bytes a buffer that is too short would have to have.
#[derive(Clone, Copy, PartialEq, Eq, Debug, Error)]
pub enum Fault {
    // Of the calling program.
    #[error("the work table is too short")]
    ShortWorkTable,
    #[error("the store is not empty")]
    StoreNotEmpty,
    #[error("the store holds no closed mesh")]
    StoreNotClosed,
    #[error("the store's counts are not the job's")]
    StoreNotOfJob,
    #[error("the result has more vertices than the store can hold")]
    VertexCapacity,
    #[error("the result has more triangles than the store can hold")]
    TriangleCapacity,
    // The index of the mark or of the code.
    #[error("a mark is over 1, or a code is over 3")]
    ValueTooLarge(u32),
    #[error("too many marks or codes, or a wrong number of displacement bytes")]
    PartLengths,
    // The bytes needed.
    #[error("the output buffer is too short")]
    ShortBuffer(u32),
    // Of a sheet's bytes.
    #[error("the sheet's length is wrong")]
    SheetLength,
    #[error("the sheet's version is not 1")]
    SheetVersion,
    #[error("the sheet's kind of place is another or unknown")]
    SheetKind,
    #[error("the sheet's {0} is out of its limits")]
    SheetCounts(Count),
    #[error("the sheet's size does not fit its counts")]
    SheetSize,
    // The vertex.
    #[error("a vertex's bytes are no place")]
    NoPlace(u32),
    // The triangle.
    #[error("a triangle's corner is no vertex, or two corners are equal")]
    BadCorners(u32),
    #[error("a triangle has a side of a lower triangle")]
    RepeatedSide(u32),
    #[error("a triangle has a side whose reverse is missing")]
    OpenSide(u32),
    // The vertex.
    #[error("the triangles at a vertex form no single ring")]
    NoSingleRing(u32),
    // Of a record's bytes.
    #[error("the record's length is wrong")]
    RecordLength,
    #[error("the record's version is not 1")]
    RecordVersion,
    #[error("the record's kind of place is another or unknown")]
    RecordKind,
    #[error("the record's marks are cut short")]
    MarksCutShort,
    // The byte's offset.
    #[error("a spare bit behind the marks is set")]
    SpareMarkBit(u32),
    #[error("no edge is marked")]
    NoMark,
    // The edge.
    #[error("a mark closes a loop with lower ones")]
    MarkClosesLoop(u32),
    // The tree's lowest vertex.
    #[error("a tree has a single edge")]
    SingleEdgeTree(u32),
    #[error("the number of codes does not fit the trees")]
    CodeCount,
    #[error("the record's size does not fit its parts")]
    RecordSize,
    // The byte's offset.
    #[error("a spare bit behind the codes is set")]
    SpareCodeBit(u32),
    // The tree's number.
    #[error("a tree's codes end before or after its polygon")]
    CodesOffTree(u32),
    #[error("a tree's loop comes round too early")]
    LoopTooShort(u32),
    // The higher triangle.
    #[error("the result has a side twice")]
    SideTwice(u32),
    // The vertex after the split.
    #[error("a displaced place is no place")]
    NoDisplacedPlace(u32),
}
