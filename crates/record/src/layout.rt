// Handing out the stretches of a record's bytes.
use crate::record::Record;
use fault::Fault;
use place::Place;
use std::array::IntoIter;
use std::marker::Model;

// A part of a record's own bytes, with its offset in the record.
#[derive(Clone, Copy, PartialEq, Eq, Debug)]
pub enum Stretch<'a> {
    Marks(&'a [u8], u32),
    Codes(&'a [u8], u32),
    Displacements(&'a [u8], u32),
}

// Hands out the stretches of a record one at a time. Contracts see the pieces that are still to come.
#[derive(Drop)]
pub struct Layout<'a> {
    stretches: IntoIter<Stretch<'a>, 3>,
}

impl<'a> Model for Layout<'a> {
    ghost use Rattle.std.specs.Prelude.{List, map};
    ghost use Rattle.std.specs.Array.Iter.{array_into_iter_items};
    ghost use Rattle.record.specs.Stretches.{Piece, meaning};

    ghost Value = { List Piece };

    ghost view = { λ l. map meaning (array_into_iter_items l.stretches) };
}

impl<'a> Layout<'a> {
    ghost use Rattle.record.specs.Checks.{layout_fault};
    ghost use Rattle.record.specs.Stretches.{Opens};

    // Opens a record of a kind of place for a number of edges.
    pub fn open<P: Place>(bytes: &'a [u8], edges: u32) -> Result<Layout<'a>, Fault>
        ensures { Opens result (layout_fault P.Place.kind bytes.now edges) bytes.now edges }
    {
        let record = Record { bytes, edges };
        record.check_layout::<P>()?;
        let stretches = [
            Stretch::Marks(record.marks(), 10),
            Stretch::Codes(record.codes(), record.codes_from() as u32),
            Stretch::Displacements(record.displacements(), record.displacements_from() as u32),
        ];
        Ok(Layout {
            stretches: stretches.into_iter(),
        })
    }
}

impl<'a> Iterator for Layout<'a> {
    ghost use Rattle.std.specs.Prelude.{length};
    ghost use Rattle.std.specs.Iterator.{at_most};
    ghost use Rattle.record.specs.Stretches.{HandsOut};

    type Item = Stretch<'a>;

    ghost next_gives = { HandsOut };

    ghost remaining = { λ s. at_most (length s) };

    // The marks, the codes, the displacements, then no more.
    fn next(&mut self) -> Option<Stretch<'a>> {
        self.stretches.next()
    }
}
