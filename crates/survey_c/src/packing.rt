// Counts as sixteen bytes.
ghost use Rattle.std.specs.Prelude.{◌≡◌};
ghost use Rattle.survey_c.specs.Answers.{counts_bytes};

use place::three_words;
use survey::Counts;

// V, E, T and V − E + T, each a signed number of 32 bits, the first byte the highest.
pub(crate) fn counts_bytes(counts: Counts) -> [u8; 16]
    ensures { result ≡ counts_bytes counts }
{
    let [a, b, c, d, e, f, g, h, i, j, k, l] = three_words(
        counts.vertices,
        counts.edges,
        counts.triangles,
    );
    let [m, n, o, p] = counts.euler.to_be_bytes();
    [a, b, c, d, e, f, g, h, i, j, k, l, m, n, o, p]
}
