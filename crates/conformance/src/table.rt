// A table of cases, read item by item.
ghost use Rattle.std.specs.Prelude.{◌≡◌, ◌↔◌, ◌+◌, ◌<◌, ◌++◌, length, IsNone, IfSome};
ghost use Rattle.place.specs.Words.{word};

use crate::answer::Answer;
use crate::order::Order;
use place::word_at;

// What has not been read yet.
#[derive(Clone, Copy)]
pub struct Table<'a> {
    pub rest: &'a [u8],
}

// A sheet, and the parents of its vertices as an item of numbers.
#[derive(Clone, Copy)]
pub struct Mesh<'a> {
    pub sheet: &'a [u8],
    pub parents: &'a [u8],
}

// A record, how it is offered, what must come out, and what the store then holds if not what it held.
#[derive(Clone, Copy)]
pub struct Step<'a> {
    pub order: Order,
    pub record: &'a [u8],
    pub answer: Answer,
    pub mesh: Option<Mesh<'a>>,
}

impl<'a> Table<'a> {
    // The next item, its length field included; none where the table ends before it does.
    pub fn item(&mut self) -> Option<&'a [u8]>
        ensures front { IfSome result (λ item. item.now ++ self.new.rest.now ≡ self.old.rest.now) }
        ensures size { IfSome result (λ item. length item.now ≡ word self.old.rest.now 0 + 4) }
        ensures short { IsNone result ↔ (length self.old.rest.now < word self.old.rest.now 0 + 4) }
    {
        let size = word_at(self.rest, 0) as usize + 4;
        let (item, rest) = self.rest.split_at_checked(size)?;
        self.rest = rest;
        Some(item)
    }

    pub fn mesh(&mut self) -> Option<Mesh<'a>> {
        let sheet = self.item()?;
        let parents = self.item()?;
        Some(Mesh { sheet, parents })
    }

    pub fn step(&mut self) -> Option<Step<'a>> {
        let order = Order::of(self.item()?);
        let record = self.item()?;
        let answer = Answer::of(self.item()?);
        let mesh = if answer.is_split() || order.replaces() {
            Some(self.mesh()?)
        } else {
            None
        };
        Some(Step {
            order,
            record,
            answer,
            mesh,
        })
    }
}
