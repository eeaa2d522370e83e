// The survey of a sheet handed to C programs, as a static library: one export, which calls the library survey_c.
#![tactic(auto)]

ghost use Rattle.std.specs.Prelude.{◌≡◌};
ghost use Rattle.survey_c.specs.Answers.{answer, after};

// 0 with V, E, T and V − E + T in the first 16 bytes of `out`, or the refusal's number with nothing written. C reads a
// number, and no `Result`.
#[unsafe(no_mangle)]
pub extern "C" fn wz_survey_sheet(sheet: &[u8], out: &mut [u8]) -> u32
    ensures answer { result ≡ answer sheet.now out.old }
    ensures after { out.new ≡ after sheet.now out.old }
{
    survey_c::wz_survey_sheet(sheet, out)
}
