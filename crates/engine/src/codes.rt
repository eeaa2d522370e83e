// The codes of a record as numbers, and how they part among the trees. Number 0 is the code for no further part, 1 and 2 for
// one, 3 for two.
ghost use Rattle.std.specs.Prelude.{◌≡◌, ℕ, ◌+◌, ◌-◌, ◌^◌, ◌<◌, ◌≤◌, true, List, ◌∷◌, length, map, drop, slice_index};
ghost use Rattle.record.specs.Packing.{code_in};
ghost use Rattle.record.specs.Parts.{code_count, codes_read};
ghost use Rattle.forest.specs.Polygons.{Code, after, closes, span};
ghost use Rattle.forest.specs.Tables.{unclosed_from};
ghost use Rattle.runs.specs.Parts.{code_of};

use record::{Record, code_at};

// Code `i` of the codes' bytes, 0 where its byte is not there.
fn code_in(bytes: &[u8], i: u32) -> u32
    ensures { result ≡ code_in bytes.now i }
{
    code_at(bytes, i).map_or(0, u32::from)
}

// Writes the codes of a record.
pub(crate) fn set_codes(source: &Record, codes: &mut [u32])
    requires { length codes.old ≡ code_count source.now.bytes.now }
    ensures { codes.new ≡ codes_read source.now.bytes.now source.now.edges }
{
    let bytes = source.codes();
    for i in 0..source.code_count() {
        codes[i as usize] = code_in(bytes, i);
    }
}

// How many parts are open after a code, where so many are open besides the one that it ends or goes on with.
pub(crate) fn open_after(code: u32, others: usize) -> usize
    requires { others < 2 ^ 32 }
    ensures { result ≡ after (code_of code) others }
{
    match code {
        0 => others,
        1 | 2 => others + 1,
        _ => others + 2,
    }
}

// Whether the codes end the part that they begin, with the last of them and not before.
fn all_close(codes: &[u32]) -> bool
    requires { length codes.now < 2 ^ 32 }
    ensures { result ≡ closes 1 (length codes.now) (map code_of codes.now) }
{
    let mut parts = 1;
    for &code in codes {
        if parts == 0 {
            return false;
        }
        parts = open_after(code, parts - 1);
    }
    parts == 0
}

// The same of the next `count` codes, which may not be there.
fn next_close(codes: &[u32], count: usize) -> bool
    requires { length codes.now < 2 ^ 32 }
    ensures value { result ≡ closes 1 count (map code_of codes.now) }
    ensures there { result ≡ true → count ≤ length codes.now }
{
    let Some(next) = codes.get(..count) else {
        return false;
    };
    all_close(next)
}

// The first tree whose codes do not close, of trees one after another, by their numbers of positions.
pub(crate) fn first_unclosed(arounds: &[u32], codes: &[u32]) -> Option<u32>
    requires trees { length arounds.now < 2 ^ 32 }
    requires codes { length codes.now < 2 ^ 32 }
    ensures { result ≡ unclosed_from 0 arounds.now (map code_of codes.now) }
{
    let mut rest = codes;
    for (tree, &around) in arounds.iter().enumerate() {
        let count = around.saturating_sub(2) as usize;
        if !next_close(rest, count) {
            return Some(tree as u32);
        }
        rest = &rest[count..];
    }
    None
}

// How many codes the part has that a code begins, if the part behind it has `left` codes, and the one behind that has `right`.
fn part_size(code: u32, left: u32, right: u32) -> u32
    requires { left + right < 2 ^ 32 - 1 }
    ensures { (cs : List Code) → left ≡ span 1 cs → right ≡ span 1 (drop left cs) → result ≡ span 1 (code_of code ∷ cs) }
{
    match code {
        0 => 1,
        1 | 2 => left + 1,
        _ => left + right + 1,
    }
}

// For each code, how many codes the part has that begins behind it: the left part, where it opens two.
pub(crate) fn set_part_sizes(codes: &[u32], sizes: &mut [u32])
    requires few { length codes.now < 2 ^ 32 }
    requires room { length codes.now ≤ length sizes.old }
    ensures { (i : ℕ) → i < length codes.now → slice_index sizes.new i ≡ span 1 (drop (i + 1) (map code_of codes.now)) }
{
    let mut left = 0;
    for i in (0..codes.len()).rev() {
        sizes[i] = left;
        left = part_size(codes[i], left, sizes[i + left as usize]);
    }
}
