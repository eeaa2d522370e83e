// What a kind of place is to the engine, which has one text for all kinds. Places and displacements are read and written
// by calls of their own: one trait for both would stand twice in every bound, with no fact less.
ghost use Rattle.std.specs.Prelude.{◌≡◌, ℕ, ◌-◌, true, ◌++◌, replicate};
ghost use Rattle.place.specs.Kinds.{Kind, Constant, Lawful};

pub trait Place: Copy {
    type Displacement: Copy;

    // The byte that stands in the formats, and no enum: kinds are open, and whoever implements the trait brings one.
    const KIND: u8;

    const WIDTH: usize;

    const DISPLACEMENT_WIDTH: usize;

    // The constants' values.
    ghost KIND: { ℕ };

    ghost WIDTH: { ℕ };

    ghost DISPLACEMENT_WIDTH: { ℕ };

    ghost kind: { Kind Self Self.Displacement };

    fn origin() -> Self
        ensures { result ≡ kind.origin };

    // The place that the first bytes stand for.
    fn read(from: &[u8]) -> Option<Self>
        ensures { result ≡ kind.read from.now };

    // The place's bytes in front, zeros behind them. Twelve bytes for every kind: an array's length cannot be a constant that
    // each kind gives.
    fn to_bytes(&self) -> [u8; 12]
        ensures value { result ≡ kind.bytes self.now ++ replicate (12 - kind.width) 0 }
        ensures held { kind.holds self.now ≡ true };

    fn read_displacement(from: &[u8]) -> Option<Self::Displacement>
        ensures { result ≡ kind.read_displacement from.now };

    fn displacement_to_bytes(by: &Self::Displacement) -> [u8; 12]
        ensures value { result ≡ kind.displacement_bytes by.now ++ replicate (12 - kind.displacement_width) 0 }
        ensures held { kind.holds_displacement by.now ≡ true };

    fn displaced(&self, by: &Self::Displacement) -> Option<Self>
        ensures { result ≡ kind.displaced self.now by.now };

    // The constants are what the kind tells.
    ghost constant: { Constant kind KIND WIDTH DISPLACEMENT_WIDTH };

    ghost lawful: { Lawful kind };
}
