// The trees of the marked edges, listed by their lowest vertices.
ghost use Rattle.std.specs.Prelude.{◌≡◌, ℕ, ◌+◌, ◌*◌, ◌/◌, ◌%◌, ◌^◌, ◌<◌, ◌≤◌, List, None, length, map, take, slice_index, slice_set};
ghost use Rattle.mesh.specs.Sides.{Side};
ghost use Rattle.forest.specs.Trees.{own, trees};
ghost use Rattle.forest.specs.Loops.{around};
ghost use Rattle.forest.specs.Roots.{root};
ghost use Rattle.forest.specs.Splitting.{first_closing, first_single};
ghost use Rattle.forest.specs.Tables.{key_sides, flags_of};
ghost use Rattle.engine.specs.Joining.{EndsBelow, Falling, Labelled};
ghost use Rattle.engine.specs.Tallies.{Ended, LeafBelow, Sized, picked};
ghost use Rattle.engine.specs.Marking.{marked, Upward};

// One marked edge more at v, and x is its other end.
fn note_end(counts: &mut [u32], others: &mut [u32], v: u32, x: u32)
    requires within { v < length counts.old }
    requires paired { length others.old ≡ length counts.old }
    requires room { slice_index counts.old v + 1 < 2 ^ 32 }
    ensures counted { counts.new ≡ slice_set counts.old v (slice_index counts.old v + 1) }
    ensures noted { others.new ≡ slice_set others.old v x }
{
    counts[v as usize] += 1;
    others[v as usize] = x;
}

// How many marked edges each vertex has, and the other end of the last of them.
fn count_ends(keys: &[u32], marks: &[u32], counts: &mut [u32], others: &mut [u32])
    requires paired { length marks.now ≡ length keys.now }
    requires few { length keys.now < 2 ^ 31 }
    requires below { EndsBelow (length counts.old) keys.now }
    requires upward { Upward keys.now }
    requires room { length others.old ≡ length counts.old }
    ensures { Ended (marked keys.now marks.now) counts.new others.new }
{
    counts.fill(0);
    for (e, key) in keys.iter().enumerate() {
        if marks[e] == 1 {
            let (low, high) = (key / 16_384, key % 16_384);
            note_end(counts, others, low, high);
            note_end(counts, others, high, low);
        }
    }
}

// How many edges the tree of each label has.
fn count_edges(keys: &[u32], marks: &[u32], labels: &[u32], sizes: &mut [u32])
    requires paired { length marks.now ≡ length keys.now }
    requires few { length keys.now < 2 ^ 31 }
    requires below { EndsBelow (length labels.now) keys.now }
    requires labelled { Labelled (marked keys.now marks.now) labels.now }
    requires room { length sizes.old ≡ length labels.now }
    ensures { Sized (marked keys.now marks.now) sizes.new }
{
    sizes.fill(0);
    for (e, key) in keys.iter().enumerate() {
        if marks[e] == 1 {
            sizes[labels[(key / 16_384) as usize] as usize] += 1;
        }
    }
}

// Writes at each label the key of the side that leaves its lowest leaf. Downward, so that the lowest is written last.
fn find_roots(labels: &[u32], counts: &[u32], others: &[u32], roots: &mut [u32])
    requires few { length labels.now ≤ 16384 }
    requires falling { Falling labels.now }
    requires counted { length counts.now ≡ length labels.now }
    requires noted { length others.now ≡ length labels.now }
    requires small { (v : ℕ) → v < length labels.now → slice_index counts.now v ≡ 1 → slice_index others.now v < 16384 }
    requires room { length roots.old ≡ length labels.now }
    ensures { (v : ℕ) → v < length labels.now → slice_index counts.now v ≡ 1 → LeafBelow labels.now counts.now others.now roots.new v }
{
    for v in (0..labels.len()).rev() {
        if counts[v] == 1 {
            roots[labels[v] as usize] = v as u32 * 16_384 + others[v];
        }
    }
}

// Moves the entries of the labels that have edges to the front, and twice the number of edges in place of it.
fn gather(lowest: &mut [u32], arounds: &mut [u32], roots: &mut [u32]) -> usize
    requires few { length arounds.old ≤ 2 ^ 32 }
    requires small { (k : ℕ) → k < length arounds.old → slice_index arounds.old k < 2 ^ 31 }
    requires room { length lowest.old ≡ length arounds.old }
    requires rooted { length roots.old ≡ length arounds.old }
    ensures count { result ≡ length (picked arounds.old (length arounds.old)) }
    ensures trees { take result lowest.new ≡ picked arounds.old (length arounds.old) }
    ensures arounds { take result arounds.new ≡ map (λ k. 2 * slice_index arounds.old k) (picked arounds.old (length arounds.old)) }
    ensures roots { take result roots.new ≡ map (slice_index roots.old) (picked arounds.old (length arounds.old)) }
{
    let mut count = 0;
    for k in 0..arounds.len() {
        if arounds[k] > 0 {
            lowest[count] = k as u32;
            arounds[count] = 2 * arounds[k];
            roots[count] = roots[k];
            count += 1;
        }
    }
    count
}

// Lists the trees by their lowest vertices, rising: how many positions each has, twice as many as edges, and the key of its
// root side. Answers how many trees there are. `counts` and `others` are there to work in.
pub(crate) fn list_trees(
    keys: &[u32],
    marks: &[u32],
    labels: &[u32],
    counts: &mut [u32],
    others: &mut [u32],
    lowest: &mut [u32],
    arounds: &mut [u32],
    roots: &mut [u32],
) -> usize
    requires paired { length marks.now ≡ length keys.now }
    requires few { length keys.now < 2 ^ 31 }
    requires small { length labels.now ≤ 16384 }
    requires below { EndsBelow (length labels.now) keys.now }
    requires upward { Upward keys.now }
    requires labelled { Labelled (marked keys.now marks.now) labels.now }
    requires forest { first_closing own 0 (key_sides keys.now) (flags_of marks.now) ≡ None }
    requires counts_room { length counts.old ≡ length labels.now }
    requires others_room { length others.old ≡ length labels.now }
    requires lowest_room { length lowest.old ≡ length labels.now }
    requires arounds_room { length arounds.old ≡ length labels.now }
    requires roots_room { length roots.old ≡ length labels.now }
    ensures count { result ≡ length (trees (length labels.now) (marked keys.now marks.now)) }
    ensures trees { take result lowest.new ≡ trees (length labels.now) (marked keys.now marks.now) }
    ensures arounds { take result arounds.new ≡ map (around (marked keys.now marks.now)) (trees (length labels.now) (marked keys.now marks.now)) }
    ensures roots { key_sides (take result roots.new) ≡ map (root (marked keys.now marks.now)) (trees (length labels.now) (marked keys.now marks.now)) }
{
    count_ends(keys, marks, counts, others);
    count_edges(keys, marks, labels, arounds);
    find_roots(labels, counts, others, roots);
    gather(lowest, arounds, roots)
}

// The first of the trees that has one edge alone, and so two positions.
pub(crate) fn first_single(lowest: &[u32], arounds: &[u32]) -> Option<u32>
    ensures { (ms : List Side) → arounds.now ≡ map (around ms) lowest.now → result ≡ first_single ms lowest.now }
{
    let tree = arounds.iter().position(|around| *around == 2)?;
    lowest.get(tree).copied()
}
