// Places on a grid of 65,536 steps each way.
ghost use Rattle.std.specs.Prelude.{◌≡◌, refl, ◌++◌, pos, replicate, ◌+ℤ◌};
ghost use Rattle.place.specs.Grids.{grid_kind, coordinate};
ghost use Rattle.place.specs.GridsLemmas.{grid_lawful};
ghost use Rattle.place.specs.Words.{half_bytes};

use crate::kind::Place;
use crate::words::three_pieces;

#[derive(Clone, Copy)]
pub struct Grid {
    pub x: u16,
    pub y: u16,
    pub z: u16,
}

// Fields as of a place, but a type of its own, so that no displacement is taken for a place.
#[derive(Clone, Copy)]
pub struct GridDisplacement {
    pub x: i16,
    pub y: i16,
    pub z: i16,
}

// The coordinate displaced, where it stays a coordinate.
fn displaced_coordinate(from: u16, by: i16) -> Option<u16>
    ensures { result ≡ coordinate (pos from +ℤ by) }
{
    from.checked_add_signed(by)
}

// The bytes of three numbers, and zeros behind them. Written out, as those of three words are: one text for both would be
// three copies into a buffer that has room for them only where the numbers are short.
fn six_bytes(x: u16, y: u16, z: u16) -> [u8; 12]
    ensures { result ≡ half_bytes x ++ (half_bytes y ++ half_bytes z) ++ replicate 6 0 }
{
    let [a, b] = x.to_be_bytes();
    let [c, d] = y.to_be_bytes();
    let [e, f] = z.to_be_bytes();
    [a, b, c, d, e, f, 0, 0, 0, 0, 0, 0]
}

impl Place for Grid {
    type Displacement = GridDisplacement;

    const KIND: u8 = 1;

    const WIDTH: usize = 6;

    const DISPLACEMENT_WIDTH: usize = 6;

    ghost KIND = { 1 };

    ghost WIDTH = { 6 };

    ghost DISPLACEMENT_WIDTH = { 6 };

    ghost kind = { grid_kind };

    ghost constant = { record { byte_told = refl; width_told = refl; displacement_width_told = refl } };

    ghost lawful = { grid_lawful };

    fn origin() -> Grid {
        Grid { x: 0, y: 0, z: 0 }
    }

    fn read(from: &[u8]) -> Option<Grid> {
        let [x, y, z] = three_pieces(from)?.map(u16::from_be_bytes);
        Some(Grid { x, y, z })
    }

    fn to_bytes(&self) -> [u8; 12] {
        six_bytes(self.x, self.y, self.z)
    }

    fn read_displacement(from: &[u8]) -> Option<GridDisplacement> {
        let [x, y, z] = three_pieces(from)?.map(i16::from_be_bytes);
        Some(GridDisplacement { x, y, z })
    }

    fn displacement_to_bytes(by: &GridDisplacement) -> [u8; 12] {
        six_bytes(
            by.x.cast_unsigned(),
            by.y.cast_unsigned(),
            by.z.cast_unsigned(),
        )
    }

    fn displaced(&self, by: &GridDisplacement) -> Option<Grid> {
        let x = displaced_coordinate(self.x, by.x)?;
        let y = displaced_coordinate(self.y, by.y)?;
        let z = displaced_coordinate(self.z, by.z)?;
        Some(Grid { x, y, z })
    }
}
