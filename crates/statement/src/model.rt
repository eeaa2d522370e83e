// A model: a base sheet, then records.
use place::word_at;
use std::alloc::{AllocError, Global};

// The bytes of the sheet, and of each record.
#[derive(Drop)]
pub struct Model<'a> {
    pub base: &'a [u8],
    pub records: Vec<&'a [u8]>,
}

impl<'a> Model<'a> {
    ghost use Rattle.std.specs.Prelude.{◌≡◌, map, IfOk};
    ghost use Rattle.statement.specs.Models.{base_of, records_of};

    // The base has no bytes where there is no item.
    pub fn read(alloc: Global, bytes: &'a [u8]) -> Result<Model<'a>, AllocError>
        ensures base { IfOk result (λ m. m.base.now ≡ base_of bytes.now) }
        ensures records { IfOk result (λ m. map (λ r. r.now) m.records.items ≡ records_of bytes.now) }
    {
        let mut items = Items::of(bytes);
        let base = items.next().unwrap_or(&[]);
        let records = items.collect(alloc)?;
        Ok(Model { base, records })
    }
}

// The items that the bytes hold, one after another. An item that is cut short is handed out as it is: its bytes are fewer
// than its first four tell, so whoever reads it finds its length wrong.
#[derive(Clone, Copy)]
struct Items<'a> {
    rest: &'a [u8],
}

impl<'a> Items<'a> {
    ghost use Rattle.std.specs.Prelude.{◌≡◌};
    ghost use Rattle.statement.specs.Items.{items_in, items_left};

    fn of(bytes: &'a [u8]) -> Items<'a>
        ensures { items_left result ≡ items_in bytes.now }
    {
        Items { rest: bytes }
    }
}

impl<'a> Iterator for Items<'a> {
    ghost use Rattle.std.specs.Iterator.{YieldsFirstRef, item_count};
    ghost use Rattle.statement.specs.Items.{items_left};

    type Item = &'a [u8];

    ghost next_gives = { YieldsFirstRef items_left };

    ghost remaining = { item_count items_left };

    fn next(&mut self) -> Option<&'a [u8]> {
        if self.rest.is_empty() {
            return None;
        }
        let size = (word_at(self.rest, 0) as usize + 4).min(self.rest.len());
        let (item, rest) = self.rest.split_at(size);
        self.rest = rest;
        Some(item)
    }
}
