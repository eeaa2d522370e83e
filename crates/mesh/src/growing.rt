// What a store that grows is told, and what it answers.
ghost use Rattle.std.specs.Prelude.{◌≡◌, ℕ, if◌then◌else◌};
ghost use Rattle.mesh.specs.Triangles.{tri_of};
ghost use Rattle.mesh.specs.Growth.{RoomInLimits, WithinRoom, SameRoom, may_add_vertex, add_vertex, may_add_triangle, add_triangle};
ghost use Rattle.mesh.specs.Growth.{may_replace_corner, replace_corner, may_replace_place, replace_place};

use crate::limits::Room;
use crate::surface::ReadingSurface;
use crate::triangle::Triangle;

// A surface with a fixed room for vertices and triangles. Each call that changes it says yes and
// does exactly what it is named for, or says no and leaves the mesh as it was. That the room stays
// is said of each call: it compares two states, and a type's facts are of one.
pub trait GrowingStore: ReadingSurface {
    ghost vertex_room: { Self → ℕ };

    ghost triangle_room: { Self → ℕ };

    ghost room_limited: { (s : Self) → RoomInLimits (vertex_room s) (triangle_room s) };

    fn room(&self) -> Room
        ensures vertices { result.vertices ≡ vertex_room self.now }
        ensures triangles { result.triangles ≡ triangle_room self.now };

    // The vertex goes last. Its parent may be itself, by the number that it will have.
    fn add_vertex(&mut self, place: Self::Kind, parent: u32) -> bool
        ensures answer { result ≡ may_add_vertex (vertex_room self.old) (Self.mesh self.old) parent }
        ensures after { Self.mesh self.new ≡ (if result then add_vertex (Self.mesh self.old) place parent else Self.mesh self.old) }
        ensures room { SameRoom vertex_room triangle_room self.old self.new };

    // The triangle goes last.
    fn add_triangle(&mut self, t: Triangle) -> bool
        ensures answer { result ≡ may_add_triangle (triangle_room self.old) (Self.mesh self.old) (tri_of t) }
        ensures after { Self.mesh self.new ≡ (if result then add_triangle (Self.mesh self.old) (tri_of t) else Self.mesh self.old) }
        ensures room { SameRoom vertex_room triangle_room self.old self.new };

    // Corner 0, 1 or 2 of triangle t becomes v; yes also where it is v already. Corners go by number, since the call
    // says no to a number that is no corner's.
    fn replace_corner(&mut self, t: u32, corner: u8, v: u32) -> bool
        ensures answer { result ≡ may_replace_corner (Self.mesh self.old) t corner v }
        ensures after { Self.mesh self.new ≡ (if result then replace_corner (Self.mesh self.old) t corner v else Self.mesh self.old) }
        ensures room { SameRoom vertex_room triangle_room self.old self.new };

    // The parent of vertex v stays.
    fn replace_place(&mut self, v: u32, place: Self::Kind) -> bool
        ensures answer { result ≡ may_replace_place (Self.mesh self.old) v }
        ensures after { Self.mesh self.new ≡ (if result then replace_place (Self.mesh self.old) v place else Self.mesh self.old) }
        ensures room { SameRoom vertex_room triangle_room self.old self.new };

    // A law that names the mesh stands below the functions.
    ghost within_room: { (s : Self) → WithinRoom (vertex_room s) (triangle_room s) (Self.ReadingSurface.mesh s) };
}
