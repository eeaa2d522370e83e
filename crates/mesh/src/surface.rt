// What a surface is asked, and what it answers.
ghost use Rattle.std.specs.Prelude.{◌≡◌};
ghost use Rattle.std.specs.Option.{option_map};
ghost use Rattle.std.specs.List.{slice_get};
ghost use Rattle.mesh.specs.Triangles.{tri_of};
ghost use Rattle.mesh.specs.Sides.{side_of};
ghost use Rattle.mesh.specs.Meshes.{Mesh, InLimits, vertex_total, triangle_total, places, place_at, parent_at};
ghost use Rattle.mesh.specs.Passes.{triangles_left, places_left};

use crate::limits::Totals;
use crate::passes::{Places, Triangles};
use crate::triangle::Triangle;
use place::Place;

// A surface means lists of triangles and of vertices, within the limits. Questions change nothing.
pub trait ReadingSurface {
    type Kind: Place;

    ghost mesh: { Self → Mesh Self.Kind };

    ghost limited: { (s : Self) → InLimits (mesh s) };

    fn vertex_count(&self) -> u32
        ensures { result ≡ vertex_total (mesh self.now) };

    fn triangle_count(&self) -> u32
        ensures { result ≡ triangle_total (mesh self.now) };

    fn triangle(&self, t: u32) -> Option<Triangle>
        ensures { option_map tri_of result ≡ slice_get (mesh self.now).triangles t };

    fn place(&self, v: u32) -> Option<Self::Kind>
        ensures { result ≡ place_at (mesh self.now) v };

    fn parent(&self, v: u32) -> Option<u32>
        ensures { result ≡ parent_at (mesh self.now) v };

    // The lowest triangle with the side u→v.
    fn side(&self, u: u32, v: u32) -> Option<u32>
        ensures { result ≡ side_of (mesh self.now).triangles u v };

    final fn totals(&self) -> Totals
        ensures vertices { result.vertices ≡ vertex_total (mesh self.now) }
        ensures triangles { result.triangles ≡ triangle_total (mesh self.now) }
    {
        Totals {
            vertices: self.vertex_count(),
            triangles: self.triangle_count(),
        }
    }

    // The triangles one after another, from the first on.
    final fn triangles(&self) -> Triangles<'_, Self>
        ensures { triangles_left mesh result ≡ (mesh self.now).triangles }
    {
        Triangles::new(self)
    }

    // The places of the vertices one after another, from the first on.
    final fn places(&self) -> Places<'_, Self>
        ensures { places_left mesh result ≡ places (mesh self.now) }
    {
        Places::new(self)
    }
}
