// Which records the shop carries out.
#[derive(Clone, Copy, PartialEq, Eq, Debug)]
pub enum Selection {
    // The first half, rounded down.
    Half,
    First(usize),
}

impl Selection {
    ghost use Rattle.std.specs.Prelude.{◌≡◌};
    ghost use Rattle.statement.specs.Selections.{selected};

    pub fn select<'a, 'b>(self, records: &'b [&'a [u8]]) -> &'b [&'a [u8]]
        ensures { result.now ≡ selected self records.now }
    {
        let count = match self {
            Selection::Half => records.len() / 2,
            Selection::First(count) => count.min(records.len()),
        };
        &records[..count]
    }
}
