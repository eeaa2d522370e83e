// The polygons that fill the holes along the trees, triangulated by their codes.
ghost use Rattle.std.specs.Prelude.{◌≡◌, ℕ, ◌+◌, ◌-◌, ◌*◌, ◌^◌, ◌<◌, ◌≤◌, true, List, [], ◌∷◌, ◌++◌, length, map, take, drop, None, slice_index};
ghost use Rattle.std.specs.List.{sum, sum_by};
ghost use Rattle.mesh.specs.Triangles.{tri};
ghost use Rattle.forest.specs.Loops.{read_as};
ghost use Rattle.forest.specs.Numbering.{renamed};
ghost use Rattle.forest.specs.Polygons.{Code, after, closes, number_at, open_part, opened, polygon, span, third};
ghost use Rattle.forest.specs.Tables.{filled, flags_of, unclosed_from, word_tris};
ghost use Rattle.runs.specs.Parts.{code_of};
ghost use Rattle.engine.specs.Filling.{opens};

use crate::codes::set_part_sizes;

// Puts an open part upon the others of the stack, and says how many are open then.
fn push_part(stack: &mut [u32], others: usize, right: u32, left: u32) -> usize
    requires { 2 * others + 1 < length stack.old }
    ensures count { result ≡ others + 1 }
    ensures parts { opens result stack.new ≡ open_part right left ∷ opens others stack.old }
{
    stack[2 * others] = right;
    stack[2 * others + 1] = left;
    others + 1
}

// Puts the parts that a code opens upon the others of the stack, and says how many are open then.
fn push_opened(
    stack: &mut [u32],
    others: usize,
    code: u32,
    right: u32,
    corner: u32,
    left: u32,
) -> usize
    requires { 2 * after (code_of code) others ≤ length stack.old }
    ensures count { result ≡ after (code_of code) others }
    ensures parts { opens result stack.new ≡ opened (code_of code) right corner left (opens others stack.old) }
{
    match code {
        0 => others,
        1 => push_part(stack, others, corner, left),
        2 => push_part(stack, others, right, corner),
        _ => {
            let lower = push_part(stack, others, right, corner);
            push_part(stack, lower, corner, left)
        }
    }
}

// The third corner of the triangle between a right and a left corner. The left part has `size` codes, where there are two.
fn third_corner(code: u32, right: u32, left: u32, size: u32) -> u32
    requires apart { right < left }
    requires both { 3 ≤ code → size < left }
    ensures { (cs : List Code) → (3 ≤ code → size ≡ span 1 cs) → result ≡ third (code_of code) right left cs }
{
    match code {
        0 | 1 => right + 1,
        2 => left - 1,
        _ => left - 1 - size,
    }
}

// The number of a position, where as many as there are stands for the first.
fn number_at(numbers: &[u32], position: u32) -> u32
    requires some { 0 < length numbers.now }
    requires within { position ≤ length numbers.now }
    ensures { result ≡ number_at (length numbers.now) numbers.now position }
{
    let j = position as usize;
    numbers[if j == numbers.len() { 0 } else { j }]
}

// Writes the corners of triangle `i`.
fn set_corners(words: &mut [u32], i: usize, a: u32, b: u32, c: u32)
    requires { 3 * i + 2 < length words.old }
    ensures { word_tris (take (3 * i + 3) words.new) ≡ word_tris (take (3 * i) words.old) ++ tri a b c ∷ [] }
{
    words[3 * i] = a;
    words[3 * i + 1] = b;
    words[3 * i + 2] = c;
}

// Writes triangle `i`, of three positions, by their numbers. A mirrored tree has it turned round.
fn set_triangle(
    words: &mut [u32],
    i: usize,
    mirror: bool,
    numbers: &[u32],
    left: u32,
    corner: u32,
    right: u32,
)
    requires room { 3 * i + 2 < length words.old }
    requires some { 0 < length numbers.now }
    requires left { left ≤ length numbers.now }
    requires corner { corner ≤ length numbers.now }
    requires right { right ≤ length numbers.now }
    ensures { word_tris (take (3 * i + 3) words.new) ≡ word_tris (take (3 * i) words.old) ++ read_as mirror (map (renamed (λ j x y. number_at (length numbers.now) numbers.now j)) (tri left corner right ∷ [])) }
{
    let l = number_at(numbers, left);
    let o = number_at(numbers, corner);
    let r = number_at(numbers, right);
    if mirror {
        set_corners(words, i, l, r, o);
    } else {
        set_corners(words, i, l, o, r);
    }
}

// Writes the triangles of one tree's polygon, one for each code. The stack has the parts that are open.
fn fill_polygon(
    mirror: bool,
    numbers: &[u32],
    codes: &[u32],
    sizes: &[u32],
    stack: &mut [u32],
    words: &mut [u32],
)
    requires few { length numbers.now < 2 ^ 31 }
    requires counted { length numbers.now ≡ length codes.now + 2 }
    requires closed { closes 1 (length codes.now) (map code_of codes.now) ≡ true }
    requires measured { length codes.now ≤ length sizes.now }
    requires sized { (i : ℕ) → i < length codes.now → slice_index sizes.now i ≡ span 1 (drop (i + 1) (map code_of codes.now)) }
    requires depth { length codes.now < length stack.old }
    requires room { length words.old ≡ 3 * length codes.now }
    ensures { word_tris words.new ≡ polygon mirror (length numbers.now) numbers.now (map code_of codes.now) }
{
    let mut parts = push_part(stack, 0, 1, numbers.len() as u32);
    for (i, &code) in codes.iter().enumerate() {
        let others = parts - 1;
        let right = stack[2 * others];
        let left = stack[2 * others + 1];
        let corner = third_corner(code, right, left, sizes[i]);
        set_triangle(words, i, mirror, numbers, left, corner, right);
        parts = push_opened(stack, others, code, right, corner, left);
    }
}

// Writes the triangles of all trees' polygons, tree after tree, one for each code. The trees go by their numbers of positions;
// `sizes` and `stack` are for one tree at a time.
pub(crate) fn fill_polygons(
    arounds: &[u32],
    mirrors: &[u32],
    numbers: &[u32],
    codes: &[u32],
    sizes: &mut [u32],
    stack: &mut [u32],
    words: &mut [u32],
)
    requires mirrored { length mirrors.now ≡ length arounds.now }
    requires closed { unclosed_from 0 arounds.now (map code_of codes.now) ≡ None }
    requires few { length numbers.now < 2 ^ 31 }
    requires numbered { sum arounds.now ≤ length numbers.now }
    requires coded { sum_by (λ n. n - 2) arounds.now ≡ length codes.now }
    requires measured { length codes.now ≤ length sizes.old }
    requires depth { length codes.now < length stack.old }
    requires room { length words.old ≡ 3 * length codes.now }
    ensures { word_tris words.new ≡ filled arounds.now (flags_of mirrors.now) numbers.now (map code_of codes.now) }
{
    let mut from = 0;
    let mut at = 0;
    for (tree, &around) in arounds.iter().enumerate() {
        let to = from + around as usize;
        let next = at + (around as usize - 2);
        let part = &codes[at..next];
        set_part_sizes(part, sizes);
        let ours = &numbers[from..to];
        let triangles = &mut words[3 * at..3 * next];
        fill_polygon(mirrors[tree] == 1, ours, part, sizes, stack, triangles);
        from = to;
        at = next;
    }
}
