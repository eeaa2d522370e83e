// The call that a C program makes, for Rattle programs: the crate survey_export hands it to C.
ghost use Rattle.std.specs.Prelude.{◌≡◌};
ghost use Rattle.survey_c.specs.Answers.{answer, after};

use crate::packing::counts_bytes;
use crate::surveying::survey_any;
use fault::Fault;

// 0 with V, E, T and V − E + T in the first 16 bytes of `out`, or the refusal's number with nothing written. C reads a
// number, and no `Result`.
pub fn wz_survey_sheet(sheet: &[u8], out: &mut [u8]) -> u32
    ensures answer { result ≡ answer sheet.now out.old }
    ensures after { out.new ≡ after sheet.now out.old }
{
    if out.len() < 16 {
        return u32::from(Fault::ShortBuffer(16).number());
    }
    match survey_any(sheet) {
        Ok(counts) => {
            let bytes = counts_bytes(counts);
            out[0..16].copy_from_slice(&bytes);
            0
        }
        Err(fault) => u32::from(fault.number()),
    }
}
