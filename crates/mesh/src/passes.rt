// A surface's triangles, and the places of its vertices, one after another.
ghost use Rattle.std.specs.Prelude.{◌≡◌};
ghost use Rattle.std.specs.Iterator.{YieldsFirst, YieldsFirstBy, item_count};
ghost use Rattle.mesh.specs.Triangles.{tri_of};
ghost use Rattle.mesh.specs.Meshes.{places};

use crate::surface::ReadingSurface;
use crate::triangle::Triangle;

// The triangles of a surface, from the number `next` on.
#[derive(Clone, Copy)]
pub struct Triangles<'a, S> {
    surface: &'a S,
    next: u32,
}

// The places of a surface's vertices, from the number `next` on. It has a text of its own beside
// `Triangles`: one for both would need a trait for nothing but the question and its answer.
#[derive(Clone, Copy)]
pub struct Places<'a, S> {
    surface: &'a S,
    next: u32,
}

impl<'a, S: ReadingSurface> Triangles<'a, S> {
    ghost use Rattle.mesh.specs.Passes.{triangles_left};

    pub(crate) fn new(surface: &'a S) -> Self
        ensures { triangles_left S.mesh result ≡ (S.mesh surface.now).triangles }
    {
        Triangles { surface, next: 0 }
    }
}

impl<'a, S: ReadingSurface> Iterator for Triangles<'a, S> {
    ghost use Rattle.mesh.specs.Passes.{triangles_left};

    type Item = Triangle;

    ghost next_gives = { YieldsFirstBy tri_of (triangles_left S.mesh) };

    ghost remaining = { item_count (triangles_left S.mesh) };

    fn next(&mut self) -> Option<Triangle> {
        let triangle = self.surface.triangle(self.next)?;
        self.next += 1;
        Some(triangle)
    }
}

impl<'a, S: ReadingSurface> Places<'a, S> {
    ghost use Rattle.mesh.specs.Passes.{places_left};

    pub(crate) fn new(surface: &'a S) -> Self
        ensures { places_left S.mesh result ≡ places (S.mesh surface.now) }
    {
        Places { surface, next: 0 }
    }
}

impl<'a, S: ReadingSurface> Iterator for Places<'a, S> {
    ghost use Rattle.mesh.specs.Passes.{places_left};

    type Item = S::Kind;

    ghost next_gives = { YieldsFirst (places_left S.mesh) };

    ghost remaining = { item_count (places_left S.mesh) };

    fn next(&mut self) -> Option<S::Kind> {
        let place = self.surface.place(self.next)?;
        self.next += 1;
        Some(place)
    }
}
