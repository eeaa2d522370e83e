// What both stores ask of their tables: which records are in use, how much room there is, and which changes they may make.
// Places, parents, corners and vertices go by themselves, as in the calls of a growing store, which may be asked for any.
ghost use Rattle.std.specs.Prelude.{◌≡◌, ◌≤◌, min, take, length};
ghost use Rattle.mesh.specs.Triangles.{tri_of};
ghost use Rattle.mesh.specs.Growth.{may_add_vertex, may_add_triangle, may_replace_corner, may_replace_place};

use mesh::{MAX_TRIANGLES, MAX_VERTICES, ReadingSurface, Room, Triangle};

// The records in use: the first ones of a table.
pub(crate) fn in_use<R>(table: &[R], count: u32) -> &[R]
    requires { count ≤ length table.now }
    ensures { result.now ≡ take count table.now }
{
    &table[..count as usize]
}

// The room in tables of these lengths, within the limits of a mesh.
pub(crate) fn room_of(triangles: usize, vertices: usize) -> Room
    ensures triangles { result.triangles ≡ min triangles 32768 }
    ensures vertices { result.vertices ≡ min vertices 16384 }
{
    Room {
        triangles: triangles.min(MAX_TRIANGLES as usize) as u32,
        vertices: vertices.min(MAX_VERTICES as usize) as u32,
    }
}

// Whether a vertex with this parent may be added, where there is room for so many.
pub(crate) fn may_add_vertex<S: ReadingSurface>(store: &S, room: u32, parent: u32) -> bool
    ensures { result ≡ may_add_vertex room (S.mesh store.now) parent }
{
    let n = store.vertex_count();
    n < room && parent <= n
}

// Whether the triangle may be added, where there is room for so many.
pub(crate) fn may_add_triangle<S: ReadingSurface>(store: &S, room: u32, t: Triangle) -> bool
    ensures { result ≡ may_add_triangle room (S.mesh store.now) (tri_of t) }
{
    store.triangle_count() < room && t.is_below(store.vertex_count()) && t.has_different_corners()
}

// Whether this corner of triangle t may become v.
pub(crate) fn may_replace_corner<S: ReadingSurface>(store: &S, t: u32, corner: u8, v: u32) -> bool
    ensures { result ≡ may_replace_corner (S.mesh store.now) t corner v }
{
    store.triangle(t).is_some_and(|old| {
        corner < 3 && v < store.vertex_count() && old.with_corner(corner, v).has_different_corners()
    })
}

// Whether there is a vertex v, whose place may be another.
pub(crate) fn may_replace_place<S: ReadingSurface>(store: &S, v: u32) -> bool
    ensures { result ≡ may_replace_place (S.mesh store.now) v }
{
    v < store.vertex_count()
}
