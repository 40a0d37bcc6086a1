ghost use Rattle.std.specs.Prelude.{◌≡◌, ◌^◌, ◌<◌, ⊤};

use crate::arithmetic::Arithmetic;
use std::alloc::AllocError;
use std::marker::PhantomData;

// An element of the field of an arithmetic: its place is the number that it is.
pub struct Element<A: Arithmetic> {
    place: u16,
    arithmetic: PhantomData<A>,
    ghost below: { place < 2 ^ A.BITS },
}

// By hand, since a derive is refused on a struct whose ghost fields name a bound's constant.
impl<A: Arithmetic> Clone for Element<A> {
    ghost is_clone = { λ x y. y ≡ x };

    ghost is_infallible = { λ _. ⊤ };

    fn clone(&self) -> Result<Element<A>, AllocError> {
        Ok(*self)
    }
}

impl<A: Arithmetic> Copy for Element<A> {}

pub mod field;
