// A surface copied into a store.
ghost use Rattle.std.specs.Prelude.{◌≡◌};
ghost use Rattle.mesh.specs.Meshes.{places};
ghost use Rattle.mesh.specs.Growth.{SameRoom};
ghost use Rattle.mesh.specs.Copies.{with_vertices, with_triangles, copied};

use crate::growing::GrowingStore;
use crate::surface::ReadingSurface;
use place::Place;

// Offers a vertex at each place, by the number that it will have as its own parent.
fn copy_vertices<P: Place, A: ReadingSurface<Kind = P>, S: GrowingStore<Kind = P>>(
    from: &A,
    store: &mut S,
)
    ensures mesh { S.ReadingSurface.mesh store.new ≡ with_vertices (S.GrowingStore.vertex_room store.old) (S.ReadingSurface.mesh store.old) (places (A.ReadingSurface.mesh from.now)) }
    ensures room { SameRoom S.GrowingStore.vertex_room S.GrowingStore.triangle_room store.old store.new }
{
    for place in from.places() {
        let own = store.vertex_count();
        store.add_vertex(place, own);
    }
}

fn copy_triangles<P: Place, A: ReadingSurface<Kind = P>, S: GrowingStore<Kind = P>>(
    from: &A,
    store: &mut S,
)
    ensures mesh { S.ReadingSurface.mesh store.new ≡ with_triangles (S.GrowingStore.triangle_room store.old) (S.ReadingSurface.mesh store.old) (A.ReadingSurface.mesh from.now).triangles }
    ensures room { SameRoom S.GrowingStore.vertex_room S.GrowingStore.triangle_room store.old store.new }
{
    for triangle in from.triangles() {
        store.add_triangle(triangle);
    }
}

// Offers each vertex of a surface to the store, as its own parent, and then each triangle. The
// store takes what it may. That its room stays is a fact of the store before and after.
pub fn copy_surface<P: Place, A: ReadingSurface<Kind = P>, S: GrowingStore<Kind = P>>(
    from: &A,
    store: &mut S,
)
    ensures mesh { S.ReadingSurface.mesh store.new ≡ copied (S.GrowingStore.vertex_room store.old) (S.GrowingStore.triangle_room store.old) (A.ReadingSurface.mesh from.now) (S.ReadingSurface.mesh store.old) }
    ensures room { SameRoom S.GrowingStore.vertex_room S.GrowingStore.triangle_room store.old store.new }
{
    copy_vertices(from, store);
    copy_triangles(from, store);
}
