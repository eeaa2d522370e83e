// The forest of a record's marks on a mesh, in tables.
ghost use Rattle.std.specs.Prelude.{◌≡◌, ◌+◌, ◌*◌, ◌^◌, ◌<◌, ◌≤◌, length, map, IfOk};
ghost use Rattle.mesh.specs.Meshes.{vertex_total};
ghost use Rattle.mesh.specs.Closed.{Closed};
ghost use Rattle.mesh.specs.Edges.{edges};
ghost use Rattle.record.specs.Parts.{code_count};
ghost use Rattle.forest.specs.Trees.{trees};
ghost use Rattle.forest.specs.Roots.{root};
ghost use Rattle.forest.specs.Loops.{around};
ghost use Rattle.forest.specs.Splitting.{marked_of, unmarked_fault, forest_fault};
ghost use Rattle.forest.specs.Tables.{Climbing, key_sides, flags_of};
ghost use Rattle.runs.specs.Parts.{record_marks};
ghost use Rattle.runs.specs.Calls.{fault_in};
ghost use Rattle.engine.specs.Joining.{EndsBelow};
ghost use Rattle.engine.specs.Marking.{marked, Upward};
ghost use Rattle.engine.specs.Planting.{code_count_fault, trees_fault};
ghost use Rattle.engine.specs.Stages.{Planted};

use crate::edges::list_edges;
use crate::joining::join_trees;
use crate::loops::set_mirrors;
use crate::marks::set_marks;
use crate::trees::{first_single, list_trees};
use fault::Fault;
use mesh::ReadingSurface;
use record::Record;

// The edges with their marks; for each tree its number of positions, its root side, and whether it is mirrored; and how many
// edges are marked and how many trees they form.
#[derive(Clone, Copy)]
pub(crate) struct Forest<'t> {
    pub(crate) keys: &'t [u32],
    pub(crate) marks: &'t [u32],
    pub(crate) arounds: &'t [u32],
    pub(crate) roots: &'t [u32],
    pub(crate) mirrors: &'t [u32],
    pub(crate) edges: u32,
    pub(crate) trees: u32,
}

// Puts the keys of the edges and the marks of a record into tables, which it fills. Answers how many are marked, and refuses
// a record that marks none.
fn mark_edges<S: ReadingSurface>(
    s: &S,
    from: &Record,
    keys: &mut [u32],
    marks: &mut [u32],
) -> Result<u32, Fault>
    requires closed { Closed (vertex_total (S.mesh s.now)) (S.mesh s.now).triangles }
    requires edges { from.now.edges ≡ length (edges (S.mesh s.now).triangles) }
    requires room { length keys.old ≡ from.now.edges }
    requires paired { length marks.old ≡ from.now.edges }
    ensures fault { fault_in result ≡ unmarked_fault (marked_of (S.mesh s.now).triangles (record_marks from.now.bytes.now from.now.edges)) }
    ensures count { IfOk result (λ n. n ≡ length (marked_of (S.mesh s.now).triangles (record_marks from.now.bytes.now from.now.edges))) }
    ensures listed { key_sides keys.new ≡ edges (S.mesh s.now).triangles }
    ensures climbing { Climbing keys.new }
    ensures upward { Upward keys.new }
    ensures flags { flags_of marks.new ≡ record_marks from.now.bytes.now from.now.edges }
{
    list_edges(s, keys);
    let count = set_marks(from, marks);
    if count == 0 {
        return Err(Fault::NoMark);
    }
    Ok(count)
}

// Of each tree its number of positions, and the key of its root side.
#[derive(Clone, Copy)]
struct Trees<'t> {
    arounds: &'t [u32],
    roots: &'t [u32],
}

// Lists the trees of the marked edges, and refuses a loop, and a tree of one edge. The rest of the table is handed back.
fn list_forest<'t>(
    keys: &[u32],
    marks: &[u32],
    vertices: usize,
    table: &'t mut [u32],
) -> Result<(Trees<'t>, &'t mut [u32]), Fault>
    requires paired { length marks.now ≡ length keys.now }
    requires few { length keys.now < 2 ^ 31 }
    requires small { vertices ≤ 16384 }
    requires below { EndsBelow vertices keys.now }
    requires upward { Upward keys.now }
    requires room { 6 * vertices ≤ length table.old }
    ensures fault { fault_in result ≡ trees_fault vertices keys.now marks.now }
    ensures arounds { IfOk result (λ p. p.0.arounds.now ≡ map (around (marked keys.now marks.now)) (trees vertices (marked keys.now marks.now))) }
    ensures roots { IfOk result (λ p. key_sides p.0.roots.now ≡ map (root (marked keys.now marks.now)) (trees vertices (marked keys.now marks.now))) }
    ensures few { IfOk result (λ p. length p.0.roots.now ≤ vertices) }
    ensures rest { IfOk result (λ p. length p.1.now + 6 * vertices ≡ length table.old) }
{
    let (labels, table) = table.split_at_mut(vertices);
    if let Some(e) = join_trees(keys, marks, labels) {
        return Err(Fault::MarkClosesLoop(e));
    }
    let (counts, table) = table.split_at_mut(vertices);
    let (others, table) = table.split_at_mut(vertices);
    let (lowest, table) = table.split_at_mut(vertices);
    let (arounds, table) = table.split_at_mut(vertices);
    let (roots, table) = table.split_at_mut(vertices);
    let count = list_trees(keys, marks, labels, counts, others, lowest, arounds, roots);
    let (arounds, roots) = (&arounds[..count], &roots[..count]);
    match first_single(&lowest[..count], arounds) {
        Some(k) => Err(Fault::SingleEdgeTree(k)),
        None => Ok((Trees { arounds, roots }, table)),
    }
}

// Refuses a number of codes that is not twice the marked edges less twice the trees.
fn check_codes(from: &Record, edges: u32, trees: u32) -> Result<(), Fault>
    requires few { trees ≤ edges }
    requires small { edges < 2 ^ 31 }
    ensures { fault_in result ≡ code_count_fault edges trees (code_count from.now.bytes.now) }
{
    if from.code_count() != 2 * (edges - trees) {
        return Err(Fault::CodeCount);
    }
    Ok(())
}

// Reads the marks of a record, and refuses those that are no forest of trees with two edges or more, and then a number of codes
// that does not fit it: refusals 25 to 28. The rest of the table is handed back.
pub(crate) fn plant<'t, S: ReadingSurface>(
    s: &S,
    from: &Record,
    table: &'t mut [u32],
) -> Result<(Forest<'t>, &'t mut [u32]), Fault>
    requires closed { Closed (vertex_total (S.ReadingSurface.mesh s.now)) (S.ReadingSurface.mesh s.now).triangles }
    requires edges { from.now.edges ≡ length (edges (S.ReadingSurface.mesh s.now).triangles) }
    requires room { 2 * from.now.edges + 7 * vertex_total (S.ReadingSurface.mesh s.now) ≤ length table.old }
    ensures fault { fault_in result ≡ forest_fault (vertex_total (S.ReadingSurface.mesh s.now)) (S.ReadingSurface.mesh s.now).triangles (record_marks from.now.bytes.now from.now.edges) (code_count from.now.bytes.now) }
    ensures planted { IfOk result (λ p. Planted (vertex_total (S.ReadingSurface.mesh s.now)) (S.ReadingSurface.mesh s.now).triangles (record_marks from.now.bytes.now from.now.edges) p.0.keys.now p.0.marks.now p.0.arounds.now p.0.roots.now p.0.mirrors.now) }
    ensures edges { IfOk result (λ p. p.0.edges ≡ length (marked_of (S.ReadingSurface.mesh s.now).triangles (record_marks from.now.bytes.now from.now.edges))) }
    ensures trees { IfOk result (λ p. p.0.trees ≡ length (trees (vertex_total (S.ReadingSurface.mesh s.now)) (marked_of (S.ReadingSurface.mesh s.now).triangles (record_marks from.now.bytes.now from.now.edges)))) }
    ensures rest { IfOk result (λ p. length p.1.now + 2 * from.now.edges + 7 * vertex_total (S.ReadingSurface.mesh s.now) ≡ length table.old) }
{
    let vertices = s.vertex_count() as usize;
    let (keys, table) = table.split_at_mut(from.edges as usize);
    let (marks, table) = table.split_at_mut(from.edges as usize);
    let edges = mark_edges(s, from, keys, marks)?;
    let (listed, table) = list_forest(keys, marks, vertices, table)?;
    let trees = listed.roots.len();
    check_codes(from, edges, trees as u32)?;
    let (mirrors, table) = table.split_at_mut(vertices);
    let mirrors = &mut mirrors[..trees];
    set_mirrors(s, listed.roots, mirrors);
    let forest = Forest {
        keys,
        marks,
        arounds: listed.arounds,
        roots: listed.roots,
        mirrors,
        edges,
        trees: trees as u32,
    };
    Ok((forest, table))
}
