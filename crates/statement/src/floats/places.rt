// Places and displacements of the grid as those of floats. Every number of 16 bits is a float.
ghost use Rattle.std.specs.Prelude.{◌≡◌};
ghost use Rattle.statement.specs.Floats.{place_as_floats};

use place::{FloatDisplacement, FloatPlace, Grid, GridDisplacement, Place};
use std::num::{nearest_i64_to_f32, nearest_u64_to_f32};

pub fn place_as_floats(at: Grid) -> FloatPlace
    ensures { result ≡ place_as_floats at }
{
    let [x, y, z] = [at.x, at.y, at.z].map(|number| nearest_u64_to_f32(u64::from(number)));
    FloatPlace::new(x, y, z).unwrap_or(FloatPlace::origin())
}

pub fn displacement_as_floats(by: GridDisplacement) -> FloatDisplacement {
    let [x, y, z] = [by.x, by.y, by.z].map(|number| nearest_i64_to_f32(i64::from(number)));
    FloatDisplacement { x, y, z }
}
