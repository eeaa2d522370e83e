// Triangles as numbers, three for each.
ghost use Rattle.std.specs.Prelude.{◌≡◌, ◌+◌, ◌*◌, ◌<◌, length};
ghost use Rattle.std.specs.List.{slice_get};
ghost use Rattle.mesh.specs.Triangles.{tri_of};
ghost use Rattle.forest.specs.Tables.{word_tris};

use mesh::Triangle;

pub(crate) fn triangle_at(words: &[u32], t: usize) -> Triangle
    requires { 3 * t + 2 < length words.now }
    ensures { slice_get (word_tris words.now) t ≡ Some (tri_of result) }
{
    Triangle {
        a: words[3 * t],
        b: words[3 * t + 1],
        c: words[3 * t + 2],
    }
}
