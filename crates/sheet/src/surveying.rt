// The survey of a sheet's bytes.
ghost use Rattle.std.specs.Prelude.{◌≡◌};
ghost use Rattle.sheet.specs.Surveying.{sheet_surveyed, sheet_surveyed_within};

use crate::sheet::Sheet;
use fault::Fault;
use mesh::Room;
use place::Place;
use survey::{Counts, survey_indexed};

// The counts of a sheet that is a closed mesh, or the first fault of its bytes and its surface.
pub fn survey_sheet<P: Place>(bytes: &[u8]) -> Result<Counts, Fault>
    ensures { result ≡ sheet_surveyed P.Place.kind bytes.now }
{
    survey_indexed(&Sheet::<P>::open(bytes)?)
}

// The same for a store with this room.
pub fn survey_sheet_within<P: Place>(bytes: &[u8], room: Room) -> Result<Counts, Fault>
    ensures { result ≡ sheet_surveyed_within P.Place.kind room.vertices room.triangles bytes.now }
{
    survey_indexed(&Sheet::<P>::open_within(bytes, room)?)
}
