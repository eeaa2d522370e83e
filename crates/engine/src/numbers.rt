// The numbers of the positions.
ghost use Rattle.std.specs.Prelude.{◌≡◌, ℕ, ◌+◌, ◌-◌, ◌/◌, ◌^◌, ◌<◌, ◌≤◌, [], length, take, ◌==◌, slice_index, slice_set};
ghost use Rattle.forest.specs.Numbering.{numbers as numbers_of, parents as parents_of, unused};
ghost use Rattle.forest.specs.Tables.{key_sides};

use std::mem;

// Whether the vertex was met before; from now on it is.
fn was_met(seen: &mut [u32], v: u32) -> bool
    requires { v < length seen.old }
    ensures value { result ≡ (slice_index seen.old v == 1) }
    ensures met { seen.new ≡ slice_set seen.old v 1 }
{
    mem::replace(&mut seen[v as usize], 1) == 1
}

// Numbers the positions, which are keys of directed sides: the first at a vertex keeps its number, a later one takes the
// next unused one, and has the vertex as parent. Answers the next unused number.
pub(crate) fn number_positions(
    positions: &[u32],
    vertices: u32,
    seen: &mut [u32],
    numbers: &mut [u32],
    parents: &mut [u32],
) -> u32
    requires paired { length numbers.old ≡ length positions.now }
    requires room { length positions.now ≤ length parents.old }
    requires within { (k : ℕ) → k < length positions.now → slice_index positions.now k / 16384 < length seen.old }
    requires small { vertices + length positions.now < 2 ^ 32 }
    ensures value { result ≡ unused [] vertices (key_sides positions.now) }
    ensures numbers { numbers.new ≡ numbers_of [] vertices (key_sides positions.now) }
    ensures parents { take (result - vertices) parents.new ≡ parents_of [] (key_sides positions.now) }
{
    seen.fill(0);
    let mut next = vertices;
    for (i, &key) in positions.iter().enumerate() {
        let v = key / 16_384;
        if was_met(seen, v) {
            parents[(next - vertices) as usize] = v;
            numbers[i] = next;
            next += 1;
        } else {
            numbers[i] = v;
        }
    }
    next
}
