// A place of three finite numbers, alone in its file: no definition that names it can be cited here.
ghost use Rattle.std.specs.Prelude.{◌≡◌, true};
ghost use Rattle.place.specs.Finite.{three_finite, three_fit};

#[derive(Clone, Copy)]
pub struct FloatPlace {
    pub x: f32,
    pub y: f32,
    pub z: f32,
    // none is infinite or a NaN
    ghost real: { three_finite x y z ≡ true },
    // each is a number of binary32
    ghost held: { three_fit x y z ≡ true },
}
