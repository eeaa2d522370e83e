// The survey of a sheet's bytes, of either kind.
ghost use Rattle.std.specs.Prelude.{◌≡◌};
ghost use Rattle.survey_c.specs.Answers.{any_surveyed};

use fault::Fault;
use place::{FloatPlace, Grid, Place, byte_at};
use sheet::survey_sheet;
use survey::Counts;

// By the sheet's kind byte: floats, or else the grid, which refuses what is not its own.
pub(crate) fn survey_any(bytes: &[u8]) -> Result<Counts, Fault>
    ensures { result ≡ any_surveyed bytes.now }
{
    if byte_at(bytes, 5) == FloatPlace::KIND {
        survey_sheet::<FloatPlace>(bytes)
    } else {
        survey_sheet::<Grid>(bytes)
    }
}
