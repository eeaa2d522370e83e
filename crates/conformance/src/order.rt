// How a record is offered.
ghost use Rattle.std.specs.Prelude.{◌≡◌, ◌↔◌, ◌==◌, ◌<◌, IsTrue, min};
ghost use Rattle.place.specs.Words.{word};

use place::word_at;

// A corner that no triangle has, for an order that replaces none.
const NO_CORNER: u32 = 3;

// Whether the job is handed the second store in place of its own, the length of the work table, and a corner that is replaced
// in that store before the call.
#[derive(Clone, Copy)]
pub struct Order {
    pub is_on_second: bool,
    pub table: usize,
    pub triangle: u32,
    pub corner: u8,
    pub vertex: u32,
}

impl Order {
    pub fn of(item: &[u8]) -> Order
        ensures second { result.is_on_second ≡ (word item.now 4 == 1) }
        ensures table { result.table ≡ word item.now 8 }
        ensures triangle { result.triangle ≡ word item.now 12 }
        ensures corner { result.corner ≡ min (word item.now 16) 3 }
        ensures vertex { result.vertex ≡ word item.now 20 }
    {
        Order {
            is_on_second: word_at(item, 4) == 1,
            table: word_at(item, 8) as usize,
            triangle: word_at(item, 12),
            corner: word_at(item, 16).min(NO_CORNER) as u8,
            vertex: word_at(item, 20),
        }
    }

    pub fn replaces(&self) -> bool
        ensures { IsTrue result ↔ (self.now.corner < 3) }
    {
        u32::from(self.corner) < NO_CORNER
    }
}
