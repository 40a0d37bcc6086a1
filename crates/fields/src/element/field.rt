// The field of an arithmetic, as a field of 2^m elements.
ghost use Rattle.std.specs.Prelude.{◌≡◌, ◌^◌, ◌<◌, bit_xor};
ghost use Rattle.fields.specs.Elements.{at, places, ops, laws, roots};
ghost use Rattle.std.proofs.Common.{refl};
ghost use Rattle.std.proofs.lemmas.Nat.{xor_lt};

use super::Element;
use crate::arithmetic::Arithmetic;
use crate::field::{BinaryField, Field};
use std::marker::PhantomData;

// The element at a place.
fn element<A: Arithmetic>(place: u16) -> Element<A>
    requires { place < 2 ^ A.BITS }
    ensures { result ≡ at A.Arithmetic place }
{
    Element {
        place,
        arithmetic: PhantomData,
    }
}

impl<A: Arithmetic> Field for Element<A> {
    const BITS: u32 = A::BITS;

    ghost BITS = { A.BITS };

    ghost ops = { ops A.Arithmetic };

    ghost places = { places A.Arithmetic };

    ghost laws = { laws A.Arithmetic.own A.laws };

    ghost origin = { refl };

    ghost sums = { λ x y. (places A.Arithmetic.own).num_at (bit_xor x.place y.place) (xor_lt A.BITS x.place y.place x.below y.below) };

    fn zero() -> Element<A> {
        element(0)
    }

    fn one() -> Element<A> {
        element(1)
    }

    fn sum(self, other: Element<A>) -> Element<A> {
        element(self.place ^ other.place)
    }

    fn product(self, other: Element<A>) -> Element<A> {
        element(A::times(self.place, other.place))
    }

    fn inverse(self) -> Option<Element<A>> {
        if self.place == 0 {
            return None;
        }
        Some(element(A::inverse_of(self.place)))
    }

    fn from_place(place: u16) -> Option<Element<A>> {
        if (place as u32) < 1 << A::BITS {
            Some(element(place))
        } else {
            None
        }
    }

    fn place(self) -> u16 {
        self.place
    }
}

impl<A: Arithmetic> BinaryField for Element<A> {
    ghost roots = { roots A.Arithmetic.own A.roots };

    fn square_root(self) -> Element<A> {
        element(A::root_of(self.place))
    }
}
