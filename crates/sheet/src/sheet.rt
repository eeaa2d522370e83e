// A sheet that has passed its checks.
ghost use Rattle.std.specs.Prelude.{◌≡◌, ⊤, None};
ghost use Rattle.sheet.specs.Layout.{vertices_of, triangles_of, layout_fault};

use mesh::Totals;
use place::Place;
use std::alloc::AllocError;
use std::marker::PhantomData;

// Bytes whose layout is right, and the counts that they tell.
pub struct Sheet<'a, P: Place> {
    pub(crate) bytes: &'a [u8],
    pub(crate) totals: Totals,
    pub(crate) kind: PhantomData<P>,
    ghost right: { layout_fault P.Place.kind bytes.now ≡ None },
    ghost vertices_told: { totals.vertices ≡ vertices_of bytes.now },
    ghost triangles_told: { totals.triangles ≡ triangles_of bytes.now },
}

// By hand, since a struct with a type parameter and an invariant derives no `Clone`.
impl<'a, P: Place> Clone for Sheet<'a, P> {
    ghost is_clone = { λ sheet copy. copy ≡ sheet };

    ghost is_infallible = { λ _. ⊤ };

    fn clone(&self) -> Result<Self, AllocError> {
        Ok(*self)
    }
}

impl<'a, P: Place> Copy for Sheet<'a, P> {}
