// Triangles and their sides.
ghost use Rattle.std.specs.Prelude.{◌≡◌};
ghost use Rattle.mesh.specs.Triangles.{tri_of};
ghost use Rattle.mesh.specs.Growth.{all_below, different, with_corner};
ghost use Rattle.mesh.specs.Sides.{corner_of};

// Three vertex numbers in order; (a, b, c) has the directed sides a→b, b→c and c→a.
// In a mesh they are three different vertices; the bytes of a sheet may hold any numbers.
#[derive(Clone, Copy, PartialEq, Eq, Debug)]
pub struct Triangle {
    pub a: u32,
    pub b: u32,
    pub c: u32,
}

impl Triangle {
    // The corner that begins the side u→v; the lowest if several do. By number, 0, 1 or 2, as in a growing store's call. Three
    // comparisons say it as plainly as a search through a list of three sides.
    pub fn side_corner(&self, u: u32, v: u32) -> Option<u8>
        ensures { result ≡ corner_of u v (tri_of self.now) }
    {
        if self.a == u && self.b == v {
            Some(0)
        } else if self.b == u && self.c == v {
            Some(1)
        } else if self.c == u && self.a == v {
            Some(2)
        } else {
            None
        }
    }

    // Whether the three corners are vertices below `n`.
    pub fn is_below(&self, n: u32) -> bool
        ensures { result ≡ all_below n (tri_of self.now) }
    {
        self.a < n && self.b < n && self.c < n
    }

    pub fn has_different_corners(&self) -> bool
        ensures { result ≡ different (tri_of self.now) }
    {
        self.a != self.b && self.b != self.c && self.c != self.a
    }

    // The triangle with v for its corner k, or for its last where it has no corner k. By number, as in a growing store's call.
    pub fn with_corner(self, k: u8, v: u32) -> Triangle
        ensures { tri_of result ≡ with_corner k v (tri_of self) }
    {
        match k {
            0 => Triangle { a: v, ..self },
            1 => Triangle { b: v, ..self },
            _ => Triangle { c: v, ..self },
        }
    }
}
