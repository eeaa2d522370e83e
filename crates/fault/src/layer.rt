// The layers of the rules, by which a refusal is told.
ghost use Rattle.std.specs.Prelude.{◌≡◌};

#[derive(Clone, Copy, PartialEq, Eq, Debug)]
pub enum Layer {
    Job,
    Bytes,
    Surface,
    Loop,
    Place,
}

impl From<Layer> for u8 {
    ghost use Rattle.fault.specs.Layers.{layer_number};

    ghost from_gives = { λ layer number. number ≡ layer_number layer };

    // From 1 to 5.
    fn from(layer: Layer) -> u8 {
        match layer {
            Layer::Job => 1,
            Layer::Bytes => 2,
            Layer::Surface => 3,
            Layer::Loop => 4,
            Layer::Place => 5,
        }
    }
}
