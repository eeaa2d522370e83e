// Places of three finite numbers, and what is added to them.
ghost use Rattle.std.specs.Prelude.{◌≡◌, refl, true, is_some};
ghost use Rattle.place.specs.Finite.{three_finite, three_fit};
ghost use Rattle.place.specs.Floats.{float_kind, float_place, float_at, three_bytes};
ghost use Rattle.place.specs.FloatsLemmas.{float_lawful};

use crate::float_place::FloatPlace;
use crate::kind::Place;
use crate::words::{three_pieces, three_words};
use std::num::{f32_from_bits_with_nan, f32_to_bits_with_nan};

// Any three numbers, infinities and NaN among them; a place has only finite ones.
#[derive(Clone, Copy)]
pub struct FloatDisplacement {
    pub x: f32,
    pub y: f32,
    pub z: f32,
}

// Whether none is infinite or a NaN. Coordinates go one by one, since three of them are no place yet.
fn all_finite(x: f32, y: f32, z: f32) -> bool
    ensures { result ≡ three_finite x y z }
{
    x.is_finite() && y.is_finite() && z.is_finite()
}

impl FloatPlace {
    // The place of three numbers, none where one is infinite or a NaN. The test comes first: a place that is made holds
    // finite numbers only.
    pub fn new(x: f32, y: f32, z: f32) -> Option<FloatPlace>
        ensures value { result ≡ float_place x y z }
        ensures exact { is_some result ≡ three_finite x y z }
    {
        if all_finite(x, y, z) {
            Some(FloatPlace { x, y, z })
        } else {
            None
        }
    }
}

// The number that four bytes stand for.
fn float_of(bytes: [u8; 4]) -> f32
    ensures { result ≡ float_at bytes 0 }
{
    f32_from_bits_with_nan(u32::from_be_bytes(bytes))
}

// The bytes of three numbers, one after another.
fn three_bytes(x: f32, y: f32, z: f32) -> [u8; 12]
    ensures value { result ≡ three_bytes x y z }
    ensures held { three_fit x y z ≡ true }
{
    three_words(
        f32_to_bits_with_nan(x),
        f32_to_bits_with_nan(y),
        f32_to_bits_with_nan(z),
    )
}

impl Place for FloatPlace {
    type Displacement = FloatDisplacement;

    const KIND: u8 = 2;

    const WIDTH: usize = 12;

    const DISPLACEMENT_WIDTH: usize = 12;

    ghost KIND = { 2 };

    ghost WIDTH = { 12 };

    ghost DISPLACEMENT_WIDTH = { 12 };

    ghost kind = { float_kind };

    ghost constant = { record { byte_told = refl; width_told = refl; displacement_width_told = refl } };

    ghost lawful = { float_lawful };

    fn origin() -> FloatPlace {
        FloatPlace {
            x: 0.0,
            y: 0.0,
            z: 0.0,
        }
    }

    fn read(from: &[u8]) -> Option<FloatPlace> {
        let [x, y, z] = three_pieces(from)?.map(float_of);
        FloatPlace::new(x, y, z)
    }

    fn to_bytes(&self) -> [u8; 12] {
        three_bytes(self.x, self.y, self.z)
    }

    fn read_displacement(from: &[u8]) -> Option<FloatDisplacement> {
        let [x, y, z] = three_pieces(from)?.map(float_of);
        Some(FloatDisplacement { x, y, z })
    }

    fn displacement_to_bytes(by: &FloatDisplacement) -> [u8; 12] {
        three_bytes(by.x, by.y, by.z)
    }

    fn displaced(&self, by: &FloatDisplacement) -> Option<FloatPlace> {
        FloatPlace::new(self.x + by.x, self.y + by.y, self.z + by.z)
    }
}
