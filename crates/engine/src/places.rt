// The places that the positions of a split move to.
ghost use Rattle.std.specs.Prelude.{◌≡◌, ◌*◌, ◌≤◌, length};
ghost use Rattle.runs.specs.Parts.{displacements_read};
ghost use Rattle.forest.specs.Places.{place_before, first_refused};
ghost use Rattle.forest.specs.Trees.{start};
ghost use Rattle.forest.specs.Tables.{key_side, key_sides};
ghost use Rattle.engine.specs.Places.{displaced_by, placed_by};

use mesh::ReadingSurface;
use place::Place;

// The place of a position's vertex.
fn place_before<P: Place, S: ReadingSurface<Kind = P>>(s: &S, position: u32) -> P
    ensures { result ≡ place_before P.Place.kind (S.ReadingSurface.mesh s.now).vertices (start (key_side position)) }
{
    s.place(position / 16_384).unwrap_or(P::origin())
}

// Where the displacement in front of the bytes brings the vertex of a position; none if the kind refuses it.
fn displaced<P: Place, S: ReadingSurface<Kind = P>>(s: &S, position: u32, bytes: &[u8]) -> Option<P>
    ensures { result ≡ displaced_by P.Place.kind (S.ReadingSurface.mesh s.now).vertices (key_side position) bytes.now }
{
    place_before(s, position).displaced(&P::read_displacement(bytes)?)
}

// The same, where a refusal leaves the place as it was.
pub(crate) fn place_after<P: Place, S: ReadingSurface<Kind = P>>(
    s: &S,
    position: u32,
    bytes: &[u8],
) -> P
    ensures { result ≡ placed_by P.Place.kind (S.ReadingSurface.mesh s.now).vertices (key_side position) bytes.now }
{
    displaced(s, position, bytes).unwrap_or(place_before(s, position))
}

// The first position whose displacement the kind refuses, by its number.
pub(crate) fn first_refused<P: Place, S: ReadingSurface<Kind = P>>(
    s: &S,
    positions: &[u32],
    numbers: &[u32],
    displacements: &[u8],
) -> Option<u32>
    requires numbered { length numbers.now ≡ length positions.now }
    requires enough { length positions.now * P.Place.kind.displacement_width ≤ length displacements.now }
    ensures { result ≡ first_refused P.Place.kind (S.ReadingSurface.mesh s.now).vertices (key_sides positions.now) numbers.now (displacements_read P.Place.kind (length positions.now) displacements.now) }
{
    for (i, &position) in positions.iter().enumerate() {
        if displaced(s, position, &displacements[i * P::DISPLACEMENT_WIDTH..]).is_none() {
            return Some(numbers[i]);
        }
    }
    None
}
