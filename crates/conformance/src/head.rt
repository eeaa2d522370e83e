// The head of a case.
ghost use Rattle.std.specs.Prelude.{◌≡◌, ◌==◌};
ghost use Rattle.place.specs.Words.{word};

use place::{FloatPlace, Place, word_at};

// The kind of the stores, how many records there are, and what the stores have room for.
#[derive(Clone, Copy)]
pub struct Head {
    pub is_of_floats: bool,
    pub records: u32,
    pub vertices: usize,
    pub triangles: usize,
}

impl Head {
    pub fn of(item: &[u8]) -> Head
        ensures kind { result.is_of_floats ≡ (word item.now 4 == 2) }
        ensures records { result.records ≡ word item.now 8 }
        ensures vertices { result.vertices ≡ word item.now 12 }
        ensures triangles { result.triangles ≡ word item.now 16 }
    {
        Head {
            is_of_floats: word_at(item, 4) == u32::from(FloatPlace::KIND),
            records: word_at(item, 8),
            vertices: word_at(item, 12) as usize,
            triangles: word_at(item, 16) as usize,
        }
    }
}
