// What a refusal tells: its number, its layer and its spot.
ghost use Rattle.std.specs.Prelude.{◌≡◌};
ghost use Rattle.fault.specs.Faults.{told};
ghost use Rattle.fault.specs.Layers.{layer_number};

use crate::fault::{Count, Fault};
use crate::layer::Layer;

impl Fault {
    // From 1 to 34: C programs and printed lines tell a refusal by its number.
    pub fn number(&self) -> u8
        ensures { result ≡ (told self.now).number }
    {
        match self {
            Fault::ShortWorkTable => 1,
            Fault::StoreNotEmpty => 2,
            Fault::StoreNotClosed => 3,
            Fault::StoreNotOfJob => 4,
            Fault::VertexCapacity => 5,
            Fault::TriangleCapacity => 6,
            Fault::ValueTooLarge(_) => 7,
            Fault::PartLengths => 8,
            Fault::ShortBuffer(_) => 9,
            Fault::SheetLength => 10,
            Fault::SheetVersion => 11,
            Fault::SheetKind => 12,
            Fault::SheetCounts(_) => 13,
            Fault::SheetSize => 14,
            Fault::NoPlace(_) => 15,
            Fault::BadCorners(_) => 16,
            Fault::RepeatedSide(_) => 17,
            Fault::OpenSide(_) => 18,
            Fault::NoSingleRing(_) => 19,
            Fault::RecordLength => 20,
            Fault::RecordVersion => 21,
            Fault::RecordKind => 22,
            Fault::MarksCutShort => 23,
            Fault::SpareMarkBit(_) => 24,
            Fault::NoMark => 25,
            Fault::MarkClosesLoop(_) => 26,
            Fault::SingleEdgeTree(_) => 27,
            Fault::CodeCount => 28,
            Fault::RecordSize => 29,
            Fault::SpareCodeBit(_) => 30,
            Fault::CodesOffTree(_) => 31,
            Fault::LoopTooShort(_) => 32,
            Fault::SideTwice(_) => 33,
            Fault::NoDisplacedPlace(_) => 34,
        }
    }

    pub fn layer(&self) -> Layer
        ensures { layer_number result ≡ (told self.now).layer }
    {
        match self {
            Fault::ShortWorkTable
            | Fault::StoreNotEmpty
            | Fault::StoreNotClosed
            | Fault::StoreNotOfJob
            | Fault::VertexCapacity
            | Fault::TriangleCapacity
            | Fault::ValueTooLarge(_)
            | Fault::PartLengths
            | Fault::ShortBuffer(_) => Layer::Job,
            Fault::SheetLength
            | Fault::SheetVersion
            | Fault::SheetKind
            | Fault::SheetCounts(_)
            | Fault::SheetSize
            | Fault::RecordLength
            | Fault::RecordVersion
            | Fault::RecordKind
            | Fault::MarksCutShort
            | Fault::SpareMarkBit(_)
            | Fault::CodeCount
            | Fault::RecordSize
            | Fault::SpareCodeBit(_) => Layer::Bytes,
            Fault::BadCorners(_)
            | Fault::RepeatedSide(_)
            | Fault::OpenSide(_)
            | Fault::NoSingleRing(_)
            | Fault::NoMark
            | Fault::MarkClosesLoop(_)
            | Fault::SingleEdgeTree(_) => Layer::Surface,
            Fault::CodesOffTree(_) | Fault::LoopTooShort(_) | Fault::SideTwice(_) => Layer::Loop,
            Fault::NoPlace(_) | Fault::NoDisplacedPlace(_) => Layer::Place,
        }
    }

    // Where the fault lies: an index, an offset, a vertex, an edge, a triangle or a tree. Each refusal has
    // a spot by the rules, 0 where they name nothing.
    pub fn spot(&self) -> u32
        ensures { result ≡ (told self.now).spot }
    {
        match self {
            Fault::ValueTooLarge(spot)
            | Fault::ShortBuffer(spot)
            | Fault::NoPlace(spot)
            | Fault::BadCorners(spot)
            | Fault::RepeatedSide(spot)
            | Fault::OpenSide(spot)
            | Fault::NoSingleRing(spot)
            | Fault::SpareMarkBit(spot)
            | Fault::MarkClosesLoop(spot)
            | Fault::SingleEdgeTree(spot)
            | Fault::SpareCodeBit(spot)
            | Fault::CodesOffTree(spot)
            | Fault::LoopTooShort(spot)
            | Fault::SideTwice(spot)
            | Fault::NoDisplacedPlace(spot) => *spot,
            Fault::SheetVersion | Fault::RecordVersion => 4,
            Fault::SheetKind | Fault::RecordKind => 5,
            Fault::SheetCounts(Count::Vertices) | Fault::CodeCount => 6,
            Fault::SheetCounts(Count::Triangles) => 10,
            _ => 0,
        }
    }
}
