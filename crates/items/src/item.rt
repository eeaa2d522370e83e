// Items of the input, each with a four-byte length in front.
ghost use Rattle.std.specs.Prelude.{◌≤◌, length, IfOk};
ghost use Rattle.items.specs.Items.{Within};

use place::word_at;
use std::io;
use std::io::Read;

#[derive(Clone, Copy, PartialEq, Eq, Debug)]
pub enum Item {
    // The input ended before the item.
    Ended,
    // The item is longer than the buffer, or the input ended within it.
    Broken,
    // The item, its length included, fills so many bytes of the buffer. It is no slice of the buffer: that would be
    // lent on, and no clause could say what the buffer holds then.
    Whole(usize),
}

// Reads until the buffer is full or the input ends, and tells how many bytes came. By hand: the library's `read_exact` tells
// an end as it tells an error of that name, and tries again what was interrupted, where each error of the reader is told here.
fn fill<R: Read>(input: &mut R, buffer: &mut [u8]) -> io::Result<usize>
    ensures { IfOk result (λ n. n ≤ length buffer.new) }
{
    let mut at = 0;
    while at < buffer.len() {
        let count = input.read(&mut buffer[at..])?;
        if count == 0 {
            return Ok(at);
        }
        at += count;
    }
    Ok(at)
}

pub fn next_item<R: Read>(input: &mut R, buffer: &mut [u8]) -> io::Result<Item>
    ensures { IfOk result (λ i. Within buffer.new i) }
{
    if buffer.len() < 4 {
        return Ok(Item::Broken);
    }
    let got = fill(input, &mut buffer[0..4])?;
    if got < 4 {
        return Ok(if got == 0 { Item::Ended } else { Item::Broken });
    }
    let size = word_at(buffer, 0) as usize + 4;
    if size > buffer.len() || fill(input, &mut buffer[4..size])? < size - 4 {
        return Ok(Item::Broken);
    }
    Ok(Item::Whole(size))
}
