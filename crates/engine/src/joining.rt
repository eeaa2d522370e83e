// The trees of the marked edges: which vertices they join.
ghost use Rattle.std.specs.Prelude.{◌≡◌, ◌/◌, ◌%◌, ◌^◌, ◌<◌, ◌≤◌, true, None, length, slice_index};
ghost use Rattle.forest.specs.Trees.{own, label};
ghost use Rattle.forest.specs.Splitting.{first_closing};
ghost use Rattle.forest.specs.Tables.{key_sides, flag_of, flags_of};
ghost use Rattle.engine.specs.Joining.{EndsBelow, Falling, Finds, Flat, Joins, Labelled, Links, Own};
ghost use Rattle.engine.specs.Marking.{marked};

// Makes each vertex its own parent.
fn number(parents: &mut [u32])
    requires { length parents.old ≤ 2 ^ 32 }
    ensures { Own parents.new }
{
    for (v, parent) in parents.iter_mut().enumerate() {
        *parent = v as u32;
    }
}

// The vertex at the top of the parents of `from`. Each second vertex on the way there takes its parent's parent.
fn find(parents: &mut [u32], from: u32) -> u32
    requires falling { Falling parents.old }
    requires within { from < length parents.old }
    ensures falling { Falling parents.new }
    ensures within { result < length parents.old }
    ensures root { Finds parents.old parents.new from result }
{
    let mut v = from;
    while parents[v as usize] != v {
        let up = parents[v as usize];
        let next = parents[up as usize];
        parents[v as usize] = next;
        v = next;
    }
    v
}

// Joins what i and j belong to: the lower of the two tops stands above the other. Answers false if they are one and the same.
fn unite(parents: &mut [u32], i: u32, j: u32) -> bool
    requires falling { Falling parents.old }
    requires low { i < length parents.old }
    requires high { j < length parents.old }
    ensures falling { Falling parents.new }
    ensures joins { Joins parents.old parents.new true i j result }
{
    let a = find(parents, i);
    let b = find(parents, j);
    if a == b {
        return false;
    }
    parents[a.max(b) as usize] = a.min(b);
    true
}

// Joins the ends of an edge if it is marked. Answers false if it closes a loop.
fn join(parents: &mut [u32], key: u32, mark: u32) -> bool
    requires falling { Falling parents.old }
    requires low { key / 16384 < length parents.old }
    requires high { key % 16384 < length parents.old }
    ensures falling { Falling parents.new }
    ensures joins { Joins parents.old parents.new (flag_of mark) (key / 16384) (key % 16384) result }
{
    if mark == 1 {
        unite(parents, key / 16_384, key % 16_384)
    } else {
        true
    }
}

// Joins the ends of the marked edges, up to the first that closes a loop.
fn join_edges(keys: &[u32], marks: &[u32], parents: &mut [u32]) -> Option<u32>
    requires paired { length marks.now ≡ length keys.now }
    requires few { length keys.now ≤ 2 ^ 32 }
    requires below { EndsBelow (length parents.old) keys.now }
    requires apart { Own parents.old }
    ensures falling { Falling parents.new }
    ensures closing { result ≡ first_closing own 0 (key_sides keys.now) (flags_of marks.now) }
    ensures links { result ≡ None → Links parents.new (label (marked keys.now marks.now)) }
{
    for (e, key) in keys.iter().enumerate() {
        if !join(parents, *key, marks[e]) {
            return Some(e as u32);
        }
    }
    None
}

// Gives each vertex the top of its parents. Those below it have theirs already, so that one look is enough.
fn flatten(parents: &mut [u32])
    requires { Falling parents.old }
    ensures { Flat parents.old parents.new }
{
    for v in 0..parents.len() {
        parents[v] = parents[parents[v] as usize];
    }
}

// Joins the ends of the marked edges, edge after edge. Answers the first edge that closes a loop; if none does, `labels`
// tells of each vertex the lowest that it is joined to.
pub(crate) fn join_trees(keys: &[u32], marks: &[u32], labels: &mut [u32]) -> Option<u32>
    requires paired { length marks.now ≡ length keys.now }
    requires few { length keys.now ≤ 2 ^ 32 }
    requires small { length labels.old ≤ 2 ^ 32 }
    requires below { EndsBelow (length labels.old) keys.now }
    ensures closing { result ≡ first_closing own 0 (key_sides keys.now) (flags_of marks.now) }
    ensures labels { result ≡ None → Labelled (marked keys.now marks.now) labels.new }
{
    number(labels);
    let closing = join_edges(keys, marks, labels);
    flatten(labels);
    closing
}
