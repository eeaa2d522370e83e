// A sheet of the grid as a surface of float places.
ghost use Rattle.place.specs.Grids.{grid_kind};
ghost use Rattle.sheet.specs.Content.{sheet_mesh};
ghost use Rattle.sheet.specs.Bounds.{sheet_limited};
ghost use Rattle.statement.specs.Floats.{mesh_as_floats};
ghost use Rattle.statement.specs.FloatsLemmas.{limited_as_floats};

use super::places::place_as_floats;
use mesh::{ReadingSurface, Triangle};
use place::{FloatPlace, Grid};
use sheet::Sheet;

#[derive(Clone, Copy)]
pub struct AsFloats<'a> {
    pub sheet: Sheet<'a, Grid>,
}

impl<'a> ReadingSurface for AsFloats<'a> {
    type Kind = FloatPlace;

    ghost mesh = { λ s. mesh_as_floats (sheet_mesh grid_kind s.sheet.bytes.now) };

    ghost limited = { λ s. limited_as_floats (sheet_mesh grid_kind s.sheet.bytes.now) (sheet_limited grid_kind s.sheet.bytes.now) };

    fn vertex_count(&self) -> u32 {
        self.sheet.vertex_count()
    }

    fn triangle_count(&self) -> u32 {
        self.sheet.triangle_count()
    }

    fn triangle(&self, t: u32) -> Option<Triangle> {
        self.sheet.triangle(t)
    }

    fn place(&self, v: u32) -> Option<FloatPlace> {
        self.sheet.place(v).map(place_as_floats)
    }

    fn parent(&self, v: u32) -> Option<u32> {
        self.sheet.parent(v)
    }

    fn side(&self, u: u32, v: u32) -> Option<u32> {
        self.sheet.side(u, v)
    }
}
