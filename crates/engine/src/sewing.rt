// The seams along a forest: its positions with their numbers, the corners of the old triangles, and the polygons' triangles.
ghost use Rattle.std.specs.Prelude.{◌≡◌, ◌+◌, ◌*◌, ◌<◌, ◌≤◌, [], ◌++◌, length, map, take, IfOk, None};
ghost use Rattle.std.specs.Option.{option_map};
ghost use Rattle.fault.specs.declared.fault.Fault.TheVariants.{CodesOffTree, SideTwice};
ghost use Rattle.mesh.specs.Meshes.{vertex_total, triangle_total};
ghost use Rattle.mesh.specs.Closed.{Closed};
ghost use Rattle.record.specs.Parts.{code_count};
ghost use Rattle.forest.specs.Trees.{trees};
ghost use Rattle.forest.specs.Splitting.{all_positions, all_numbers, split_parents, kept_triangles, added_triangles, first_twice, first_unclosed, forest_fault, marked_of, sewing_fault};
ghost use Rattle.forest.specs.Tables.{key_sides, word_tris};
ghost use Rattle.runs.specs.Parts.{record_codes, record_marks};
ghost use Rattle.runs.specs.Calls.{fault_in};
ghost use Rattle.engine.specs.Clashes.{Sewable};
ghost use Rattle.engine.specs.Stages.{Planted, Sewn};
ghost use Rattle.engine.specs.Sewing.{marked_in, Standing, Sound};

use crate::clashes::first_clash;
use crate::codes::{first_unclosed, set_codes};
use crate::corners::renumber_corners;
use crate::loops::walk_loops;
use crate::marking::Marking;
use crate::numbers::number_positions;
use crate::planting::Forest;
use crate::polygons::fill_polygons;
use fault::Fault;
use mesh::ReadingSurface;
use record::Record;

// Walks the loops of the trees, numbers their positions, and tells the parents of the new vertices, and how many these are.
// `seen` is there to work in.
fn lay_out<S: ReadingSurface>(
    s: &S,
    forest: &Forest,
    positions: &mut [u32],
    numbers: &mut [u32],
    parents: &mut [u32],
    seen: &mut [u32],
) -> usize
    requires closed { Closed (vertex_total (S.mesh s.now)) (S.mesh s.now).triangles }
    requires standing { Standing (vertex_total (S.mesh s.now)) (S.mesh s.now).triangles forest.now.keys.now forest.now.marks.now forest.now.arounds.now forest.now.roots.now forest.now.mirrors.now }
    requires positions_room { length positions.old ≡ 2 * length (marked_in (S.mesh s.now).triangles forest.now.marks.now) }
    requires numbers_room { length numbers.old ≡ length positions.old }
    requires parents_room { length positions.old ≤ length parents.old }
    requires seen_room { length seen.old ≡ vertex_total (S.mesh s.now) }
    ensures positions { key_sides positions.new ≡ all_positions (vertex_total (S.mesh s.now)) (S.mesh s.now).triangles (marked_in (S.mesh s.now).triangles forest.now.marks.now) }
    ensures numbers { numbers.new ≡ all_numbers (vertex_total (S.mesh s.now)) (S.mesh s.now).triangles (marked_in (S.mesh s.now).triangles forest.now.marks.now) }
    ensures within { result ≤ length parents.old }
    ensures parents { take result parents.new ≡ split_parents (vertex_total (S.mesh s.now)) (S.mesh s.now).triangles (marked_in (S.mesh s.now).triangles forest.now.marks.now) }
{
    let marking = Marking::new(forest.keys, forest.marks);
    walk_loops(
        s,
        &marking,
        forest.roots,
        forest.arounds,
        forest.mirrors,
        positions,
    );
    let old = s.vertex_count();
    let all = number_positions(positions, old, seen, numbers, parents);
    (all - old) as usize
}

// Renumbers the corners of the old triangles along the positions.
fn recorner<S: ReadingSurface>(
    s: &S,
    forest: &Forest,
    positions: &[u32],
    numbers: &[u32],
    corners: &mut [u32],
)
    requires closed { Closed (vertex_total (S.mesh s.now)) (S.mesh s.now).triangles }
    requires standing { Standing (vertex_total (S.mesh s.now)) (S.mesh s.now).triangles forest.now.keys.now forest.now.marks.now forest.now.arounds.now forest.now.roots.now forest.now.mirrors.now }
    requires positions { key_sides positions.now ≡ all_positions (vertex_total (S.mesh s.now)) (S.mesh s.now).triangles (marked_in (S.mesh s.now).triangles forest.now.marks.now) }
    requires numbers { numbers.now ≡ all_numbers (vertex_total (S.mesh s.now)) (S.mesh s.now).triangles (marked_in (S.mesh s.now).triangles forest.now.marks.now) }
    requires room { length corners.old ≡ 3 * triangle_total (S.mesh s.now) }
    ensures { word_tris corners.new ≡ kept_triangles (vertex_total (S.mesh s.now)) (S.mesh s.now).triangles (marked_in (S.mesh s.now).triangles forest.now.marks.now) }
{
    let marking = Marking::new(forest.keys, forest.marks);
    renumber_corners(
        s,
        &marking,
        forest.arounds,
        forest.mirrors,
        positions,
        numbers,
        corners,
    );
}

// Fills the polygons along the trees by the codes of a record, and refuses codes that do not close: refusal 31. `codes`, `sizes`
// and `stack` are there to work in.
fn fill<S: ReadingSurface>(
    s: &S,
    forest: &Forest,
    from: &Record,
    numbers: &[u32],
    codes: &mut [u32],
    sizes: &mut [u32],
    stack: &mut [u32],
    added: &mut [u32],
) -> Result<(), Fault>
    requires closed { Closed (vertex_total (S.mesh s.now)) (S.mesh s.now).triangles }
    requires standing { Standing (vertex_total (S.mesh s.now)) (S.mesh s.now).triangles forest.now.keys.now forest.now.marks.now forest.now.arounds.now forest.now.roots.now forest.now.mirrors.now }
    requires sound { Sound (vertex_total (S.mesh s.now)) (S.mesh s.now).triangles forest.now.marks.now (code_count from.now.bytes.now) }
    requires numbers { numbers.now ≡ all_numbers (vertex_total (S.mesh s.now)) (S.mesh s.now).triangles (marked_in (S.mesh s.now).triangles forest.now.marks.now) }
    requires codes_room { length codes.old ≡ code_count from.now.bytes.now }
    requires sizes_room { length codes.old ≤ length sizes.old }
    requires stack_room { length codes.old < length stack.old }
    requires added_room { length added.old ≡ 3 * length codes.old }
    ensures fault { fault_in result ≡ option_map CodesOffTree (first_unclosed (marked_in (S.mesh s.now).triangles forest.now.marks.now) 0 (trees (vertex_total (S.mesh s.now)) (marked_in (S.mesh s.now).triangles forest.now.marks.now)) (record_codes from.now.bytes.now from.now.edges)) }
    ensures filled { IfOk result (λ z. word_tris added.new ≡ added_triangles (vertex_total (S.mesh s.now)) (S.mesh s.now).triangles (marked_in (S.mesh s.now).triangles forest.now.marks.now) (record_codes from.now.bytes.now from.now.edges)) }
{
    set_codes(from, codes);
    if let Some(tree) = first_unclosed(forest.arounds, codes) {
        return Err(Fault::CodesOffTree(tree));
    }
    fill_polygons(
        forest.arounds,
        forest.mirrors,
        numbers,
        codes,
        sizes,
        stack,
        added,
    );
    Ok(())
}

// Refuses a side that would be in two triangles: refusal 33. The first `new` of the parents are those of the new vertices.
fn check_clash<S: ReadingSurface>(
    s: &S,
    corners: &[u32],
    parents: &[u32],
    new: usize,
    added: &[u32],
) -> Result<(), Fault>
    requires whole { length corners.now ≡ 3 * triangle_total (S.mesh s.now) }
    requires within { new ≤ length parents.now }
    requires sewable { Sewable (vertex_total (S.mesh s.now)) (S.mesh s.now).triangles (word_tris corners.now) (take new parents.now) (word_tris added.now) }
    requires few { triangle_total (S.mesh s.now) + length (word_tris added.now) ≤ 32768 }
    ensures { fault_in result ≡ option_map SideTwice (first_twice 0 [] (word_tris corners.now ++ word_tris added.now)) }
{
    match first_clash(s, corners, &parents[..new], added) {
        Some(t) => Err(Fault::SideTwice(t)),
        None => Ok(()),
    }
}

// The positions with their numbers, the old triangles with their new corners, and the triangles of the polygons.
#[derive(Clone, Copy)]
pub(crate) struct Sewing<'t> {
    pub(crate) positions: &'t [u32],
    pub(crate) numbers: &'t [u32],
    pub(crate) corners: &'t [u32],
    pub(crate) added: &'t [u32],
}

// Walks the loops, numbers their positions and corners, and fills the polygons; refuses codes that do not close, and a side
// that would be in two triangles: refusals 31 to 33. No loop comes round too early, so 32 is never found.
pub(crate) fn sew<'t, S: ReadingSurface>(
    s: &S,
    forest: &Forest,
    from: &Record,
    table: &'t mut [u32],
) -> Result<Sewing<'t>, Fault>
    requires closed { Closed (vertex_total (S.mesh s.now)) (S.mesh s.now).triangles }
    requires planted { Planted (vertex_total (S.mesh s.now)) (S.mesh s.now).triangles (record_marks from.now.bytes.now from.now.edges) forest.now.keys.now forest.now.marks.now forest.now.arounds.now forest.now.roots.now forest.now.mirrors.now }
    requires edges { forest.now.edges ≡ length (marked_of (S.mesh s.now).triangles (record_marks from.now.bytes.now from.now.edges)) }
    requires sound { forest_fault (vertex_total (S.mesh s.now)) (S.mesh s.now).triangles (record_marks from.now.bytes.now from.now.edges) (code_count from.now.bytes.now) ≡ None }
    requires few { triangle_total (S.mesh s.now) + code_count from.now.bytes.now ≤ 32768 }
    requires room { 6 * forest.now.edges + vertex_total (S.mesh s.now) + 3 * triangle_total (S.mesh s.now) + 6 * code_count from.now.bytes.now < length table.old }
    ensures fault { fault_in result ≡ sewing_fault (vertex_total (S.mesh s.now)) (S.mesh s.now).triangles (record_marks from.now.bytes.now from.now.edges) (record_codes from.now.bytes.now from.now.edges) }
    ensures sewn { IfOk result (λ w. Sewn (vertex_total (S.mesh s.now)) (S.mesh s.now).triangles (marked_of (S.mesh s.now).triangles (record_marks from.now.bytes.now from.now.edges)) (record_codes from.now.bytes.now from.now.edges) w.positions.now w.numbers.now w.corners.now w.added.now) }
{
    let sides = 2 * forest.edges as usize;
    let count = from.code_count() as usize;
    let (positions, rest) = table.split_at_mut(sides);
    let (numbers, rest) = rest.split_at_mut(sides);
    let (parents, rest) = rest.split_at_mut(sides);
    let (seen, rest) = rest.split_at_mut(s.vertex_count() as usize);
    let (corners, rest) = rest.split_at_mut(3 * s.triangle_count() as usize);
    let (codes, rest) = rest.split_at_mut(count);
    let (sizes, rest) = rest.split_at_mut(count);
    let (added, stack) = rest.split_at_mut(3 * count);
    let new = lay_out(s, forest, positions, numbers, parents, seen);
    fill(s, forest, from, numbers, codes, sizes, stack, added)?;
    recorner(s, forest, positions, numbers, corners);
    check_clash(s, corners, parents, new, added)?;
    Ok(Sewing {
        positions,
        numbers,
        corners,
        added,
    })
}
