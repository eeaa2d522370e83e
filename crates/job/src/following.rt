// Following a vertex back through the vertices that it was split from.
ghost use Rattle.std.specs.Prelude.{◌≡◌};
ghost use Rattle.mesh.specs.Follow.{back_step};
ghost use Rattle.mesh.specs.Follow.{follow_back as led};
ghost use Rattle.mesh.specs.Meshes.{parents};
ghost use Rattle.runs.specs.Calls.{ancestor};

use mesh::ReadingSurface;

// The parent where its number is smaller, else the vertex.
fn back_step<S: ReadingSurface>(store: &S, v: u32) -> u32
    ensures { result ≡ back_step (parents (S.mesh store.now)) v }
{
    store.parent(v).map_or(v, |parent| parent.min(v))
}

// A loop, since each step goes on from the vertex that the last one came to.
fn back_from<S: ReadingSurface>(store: &S, v: u32) -> u32
    ensures { result ≡ led (parents (S.mesh store.now)) v }
{
    let mut at = v;
    for _ in 0..v {
        let next = back_step(store, at);
        if next == at {
            return at;
        }
        at = next;
    }
    at
}

// Where the vertex came from; none if there is no such vertex.
pub(crate) fn follow_back<S: ReadingSurface>(store: &S, v: u32) -> Option<u32>
    ensures { result ≡ ancestor (S.mesh store.now) v }
{
    (v < store.vertex_count()).then_some(back_from(store, v))
}
