// The interface of a field of 2^m elements. Its elements are numbered from 0 on: the number of an
// element is its place.
ghost use Rattle.std.specs.Prelude.{◌≡◌, ℕ, ◌^◌, ◌<◌, ◌≤◌, MatchOption, ◌≢◌, bit_xor};
ghost use Rattle.algebra.specs.Field.{Ops, Laws, Roots, Places};

// A commutative field of characteristic 2 with 2^m elements.
pub trait Field: Copy {
    // The number m.
    const BITS: u32;

    ghost BITS: { ℕ };

    ghost ops: { Ops Self };

    ghost places: { Places Self BITS };

    fn zero() -> Self
        ensures { result ≡ ops.zero };

    fn one() -> Self
        ensures { result ≡ ops.one };

    fn sum(self, other: Self) -> Self
        ensures { result ≡ ops.add self other };

    fn product(self, other: Self) -> Self
        ensures { result ≡ ops.mul self other };

    // Absent for zero, and only for it.
    fn inverse(self) -> Option<Self>
        ensures { MatchOption result (self ≡ ops.zero) (λ y. ((self ≢ ops.zero) × (y ≡ ops.inv self))) };

    // The element at a place; absent from 2^m on.
    fn from_place(place: u16) -> Option<Self>
        ensures { MatchOption result (2 ^ BITS ≤ place) (λ x. ((place < 2 ^ BITS) × (x ≡ places.at place))) };

    // The place of an element.
    fn place(self) -> u16
        ensures { result ≡ places.num self };

    ghost laws: { Laws ops };

    ghost origin: { places.at 0 ≡ ops.zero };

    ghost sums: { (x y : Self) → places.num (ops.add x y) ≡ bit_xor (places.num x) (places.num y) };
}

// A field in which every element has a square root.
pub trait BinaryField: Field {
    fn square_root(self) -> Self
        ensures { Self.Field.ops.mul result result ≡ self };

    ghost roots: { Roots Self.Field.ops };
}
