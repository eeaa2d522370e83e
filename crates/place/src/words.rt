// Big-endian numbers in a list of bytes; past the list's end there are zeros. A list and an offset stay two parameters, as
// in `get`: an offset belongs to no list.
ghost use Rattle.std.specs.Prelude.{◌≡◌, ◌++◌, slice_index, drop};
ghost use Rattle.place.specs.Words.{three_pieces, word, word_bytes};

// The byte at `i`.
pub fn byte_at(bytes: &[u8], i: usize) -> u8
    ensures { result ≡ slice_index bytes.now i }
{
    bytes.get(i).copied().unwrap_or(0)
}

// The bytes from `i` on.
pub fn rest_of(bytes: &[u8], i: usize) -> &[u8]
    ensures { result.now ≡ drop i bytes.now }
{
    bytes.get(i..).unwrap_or(&[])
}

// The number that the four bytes from `i` on stand for.
pub fn word_at(bytes: &[u8], i: usize) -> u32
    ensures { result ≡ word bytes.now i }
{
    let rest = rest_of(bytes, i);
    // Where four bytes are there, one test does for all of them.
    match rest.first_chunk() {
        Some(four) => u32::from_be_bytes(*four),
        None => u32::from_be_bytes([byte_at(rest, 0), byte_at(rest, 1), byte_at(rest, 2), 0]),
    }
}

// The first three pieces of SIZE bytes, none where there are fewer bytes.
pub(crate) fn three_pieces<const SIZE: usize>(from: &[u8]) -> Option<[[u8; SIZE]; 3]>
    ensures { result ≡ three_pieces SIZE from.now }
{
    let (first, rest) = from.split_first_chunk()?;
    let (second, rest) = rest.split_first_chunk()?;
    let third = rest.first_chunk()?;
    Some([*first, *second, *third])
}

// The bytes of three numbers, one after another.
pub fn three_words(x: u32, y: u32, z: u32) -> [u8; 12]
    ensures { result ≡ word_bytes x ++ (word_bytes y ++ word_bytes z) }
{
    let [a, b, c, d] = x.to_be_bytes();
    let [e, f, g, h] = y.to_be_bytes();
    let [i, j, k, l] = z.to_be_bytes();
    [a, b, c, d, e, f, g, h, i, j, k, l]
}
