// A split that has passed every check is written into the store.
ghost use Rattle.std.specs.Prelude.{◌≡◌, ◌+◌, ◌*◌, ◌/◌, ◌<◌, ◌≤◌, [], ◌++◌, length, take, drop};
ghost use Rattle.mesh.specs.Meshes.{mesh_of, vertex_total, triangle_total};
ghost use Rattle.mesh.specs.Growth.{SameRoom};
ghost use Rattle.runs.specs.Parts.{displacements_read};
ghost use Rattle.forest.specs.Places.{moved, split_places};
ghost use Rattle.forest.specs.Places.{added as added_vertices};
ghost use Rattle.forest.specs.Numbering.{numbers as numbers_of};
ghost use Rattle.forest.specs.Tables.{key_side, key_sides, word_tris};
ghost use Rattle.engine.specs.Writing.{with_later, with_moved, Started, Fitting, Exchangeable, Writable};

use crate::places::place_after;
use crate::triples::triangle_at;
use mesh::GrowingStore;
use place::Place;

// Adds the vertex of a position, unless its number is that of an old vertex.
fn add_if_later<P: Place, S: GrowingStore<Kind = P>>(
    store: &mut S,
    old: u32,
    position: u32,
    number: u32,
    bytes: &[u8],
)
    requires parent { position / 16384 ≤ vertex_total (S.ReadingSurface.mesh store.old) }
    requires room { old ≤ number → vertex_total (S.ReadingSurface.mesh store.old) < S.GrowingStore.vertex_room store.old }
    ensures mesh { S.ReadingSurface.mesh store.new ≡ with_later P.Place.kind old number (key_side position) bytes.now (S.ReadingSurface.mesh store.old) }
    ensures room { SameRoom S.GrowingStore.vertex_room S.GrowingStore.triangle_room store.old store.new }
{
    if number >= old {
        let place = place_after(store, position, bytes);
        store.add_vertex(place, position / 16_384);
    }
}

// Adds the vertices of the later positions, each at its place and with the position's vertex as parent.
fn add_later<P: Place, S: GrowingStore<Kind = P>>(
    store: &mut S,
    positions: &[u32],
    numbers: &[u32],
    displacements: &[u8],
)
    requires numbered { length numbers.now ≡ length positions.now }
    requires started { Started (vertex_total (S.ReadingSurface.mesh store.old)) (key_sides positions.now) }
    requires enough { length positions.now * P.Place.kind.displacement_width ≤ length displacements.now }
    requires room { vertex_total (S.ReadingSurface.mesh store.old)
        + length (added_vertices P.Place.kind (S.ReadingSurface.mesh store.old).vertices (key_sides positions.now) numbers.now (displacements_read P.Place.kind (length positions.now) displacements.now))
        ≤ S.GrowingStore.vertex_room store.old }
    ensures mesh { S.ReadingSurface.mesh store.new ≡ mesh_of (S.ReadingSurface.mesh store.old).triangles
        ((S.ReadingSurface.mesh store.old).vertices ++ added_vertices P.Place.kind (S.ReadingSurface.mesh store.old).vertices (key_sides positions.now) numbers.now (displacements_read P.Place.kind (length positions.now) displacements.now)) }
    ensures room { SameRoom S.GrowingStore.vertex_room S.GrowingStore.triangle_room store.old store.new }
{
    let old = store.vertex_count();
    for (i, &position) in positions.iter().enumerate() {
        let bytes = &displacements[i * P::DISPLACEMENT_WIDTH..];
        add_if_later(store, old, position, numbers[i], bytes);
    }
}

// Gives the triangles their new corners, three numbers for each.
fn replace_corners<S: GrowingStore>(store: &mut S, corners: &[u32])
    requires whole { length corners.now ≡ 3 * triangle_total (S.ReadingSurface.mesh store.old) }
    requires exchangeable { Exchangeable (vertex_total (S.ReadingSurface.mesh store.old)) (S.ReadingSurface.mesh store.old).triangles (word_tris corners.now) }
    ensures mesh { S.ReadingSurface.mesh store.new ≡ mesh_of (word_tris corners.now) (S.ReadingSurface.mesh store.old).vertices }
    ensures room { SameRoom S.GrowingStore.vertex_room S.GrowingStore.triangle_room store.old store.new }
{
    for (i, &v) in corners.iter().enumerate() {
        store.replace_corner((i / 3) as u32, (i % 3) as u8, v);
    }
}

// Adds the triangles, three numbers for each.
fn add_triangles<S: GrowingStore>(store: &mut S, added: &[u32])
    requires room { triangle_total (S.ReadingSurface.mesh store.old) + length (word_tris added.now) ≤ S.GrowingStore.triangle_room store.old }
    requires fitting { Fitting (vertex_total (S.ReadingSurface.mesh store.old)) (word_tris added.now) }
    ensures mesh { S.ReadingSurface.mesh store.new ≡ mesh_of ((S.ReadingSurface.mesh store.old).triangles ++ word_tris added.now) (S.ReadingSurface.mesh store.old).vertices }
    ensures room { SameRoom S.GrowingStore.vertex_room S.GrowingStore.triangle_room store.old store.new }
{
    for t in 0..added.len() / 3 {
        store.add_triangle(triangle_at(added, t));
    }
}

// Moves the vertex of a position, if its number is that of an old vertex.
fn move_if_kept<P: Place, S: GrowingStore<Kind = P>>(
    store: &mut S,
    old: u32,
    position: u32,
    number: u32,
    bytes: &[u8],
)
    requires { old ≤ vertex_total (S.ReadingSurface.mesh store.old) }
    ensures mesh { S.ReadingSurface.mesh store.new ≡ with_moved P.Place.kind old number (key_side position) bytes.now (S.ReadingSurface.mesh store.old) }
    ensures room { SameRoom S.GrowingStore.vertex_room S.GrowingStore.triangle_room store.old store.new }
{
    if number < old {
        let place = place_after(store, position, bytes);
        store.replace_place(number, place);
    }
}

// Moves the kept vertices, which are the first `old`. Each is kept by one position alone, so it has not moved when its place is read.
fn move_kept<P: Place, S: GrowingStore<Kind = P>>(
    store: &mut S,
    old: u32,
    positions: &[u32],
    numbers: &[u32],
    displacements: &[u8],
)
    requires within { old ≤ vertex_total (S.ReadingSurface.mesh store.old) }
    requires numbered { numbers.now ≡ numbers_of [] old (key_sides positions.now) }
    requires started { Started old (key_sides positions.now) }
    requires enough { length positions.now * P.Place.kind.displacement_width ≤ length displacements.now }
    ensures mesh { S.ReadingSurface.mesh store.new ≡ mesh_of (S.ReadingSurface.mesh store.old).triangles
        (moved P.Place.kind (take old (S.ReadingSurface.mesh store.old).vertices) (key_sides positions.now) numbers.now (displacements_read P.Place.kind (length positions.now) displacements.now) (take old (S.ReadingSurface.mesh store.old).vertices)
        ++ drop old (S.ReadingSurface.mesh store.old).vertices) }
    ensures room { SameRoom S.GrowingStore.vertex_room S.GrowingStore.triangle_room store.old store.new }
{
    for (i, &position) in positions.iter().enumerate() {
        let bytes = &displacements[i * P::DISPLACEMENT_WIDTH..];
        move_if_kept(store, old, position, numbers[i], bytes);
    }
}

// Writes a split into the store, whose calls all say yes: first the new vertices, which read their places before any vertex moves,
// then the corners and triangles, and last the places of the kept vertices.
pub(crate) fn write_split<P: Place, S: GrowingStore<Kind = P>>(
    store: &mut S,
    positions: &[u32],
    numbers: &[u32],
    displacements: &[u8],
    corners: &[u32],
    added: &[u32],
)
    requires { Writable P.Place.kind (S.GrowingStore.vertex_room store.old) (S.GrowingStore.triangle_room store.old) (S.ReadingSurface.mesh store.old) positions.now numbers.now displacements.now corners.now added.now }
    ensures mesh { S.ReadingSurface.mesh store.new ≡ mesh_of (word_tris corners.now ++ word_tris added.now)
        (split_places P.Place.kind (S.ReadingSurface.mesh store.old).vertices (key_sides positions.now) numbers.now (displacements_read P.Place.kind (length positions.now) displacements.now)) }
    ensures room { SameRoom S.GrowingStore.vertex_room S.GrowingStore.triangle_room store.old store.new }
{
    let old = store.vertex_count();
    add_later(store, positions, numbers, displacements);
    replace_corners(store, corners);
    add_triangles(store, added);
    move_kept(store, old, positions, numbers, displacements);
}
