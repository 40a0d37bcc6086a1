// Codes. The code of a seed has all places of the field in the order that the seed gives: the first n
// are the support, the next t the zeros.
ghost use Rattle.std.specs.Prelude.{◌≡◌, ℕ, ◌+◌, ◌^◌, ◌<◌, ◌≤◌, length, ◌≢◌, slice_index};
ghost use Rattle.polys.specs.Values.{value};
ghost use Rattle.shuffles.specs.Orders.{Permutation};
ghost use Rattle.goppa.specs.Columns.{Column};
ghost use Rattle.goppa.specs.Codes.{code_list, support, zeros, OffSupport};

use crate::columns::column;
use fields::field::{BinaryField, Field};
use fields::read;
use levels::guards::Place;
use shuffles::{Seed, count_from, shuffle};
use std::marker::PhantomData;

// A polynomial g, and a support with no zero of g.
#[derive(Drop)]
pub struct Code<'a, F: Field> {
    pub g: &'a [Place],
    pub support: &'a [Place],
    pub field: PhantomData<F>,
    pub ghost off: { (k : ℕ) → k < length support.now → value F.Field.ops F.Field.places g.now (F.Field.places.at (slice_index support.now k)) ≢ F.Field.ops.zero },
}

impl<F: BinaryField> Code<'_, F> {
    // Writes the column of an entry of the support.
    pub fn column(&self, k: usize, out: &mut [u16])
        requires { (length self.now.g.now ≡ length out.old + 1) × ((1 ≤ length out.old) × (k < length self.now.support.now)) }
        ensures { Column F.Field.ops F.Field.places (length out.old) self.now.g.now (F.Field.places.at (slice_index self.now.support.now k)) out.new }
    {
        column(self.g, read::<F>(self.support[k]), out).unwrap();
    }
}

// The number of elements of the field.
pub fn size<F: BinaryField>() -> usize
    requires { F.Field.BITS ≤ 16 }
    ensures { result ≡ 2 ^ F.Field.BITS }
{
    1 << F::BITS
}

// Writes the places of all elements, shuffled by a seed. Each stands there once.
pub fn code_of<F: BinaryField>(places: &mut [Place], seed: &Seed)
    requires { (length places.old ≡ 2 ^ F.Field.BITS) × (F.Field.BITS ≤ 16) }
    ensures after { places.new ≡ code_list F.Field.BITS seed.now }
    ensures once { Permutation (2 ^ F.Field.BITS) places.new }
{
    count_from(0, places);
    shuffle(places, seed);
}

// The first n elements: the support.
pub fn support_of(code: &[Place], n: usize) -> &[Place]
    requires { n ≤ length code.now }
    ensures { result.now ≡ support n code.now }
{
    &code[0..n]
}

// The next t elements: the zeros.
pub fn zeros_of(code: &[Place], n: usize, t: usize) -> &[Place]
    requires { n + t ≤ length code.now }
    ensures { result.now ≡ zeros n t code.now }
{
    &code[n..n + t]
}

// The support of a code has none of its zeros.
pub fn support_stands<F: Field>() -> u8
    ensures { OffSupport F.Field.ops F.Field.places }
{
    0
}
