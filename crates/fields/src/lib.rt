// Fields of 2^m elements, as an interface and as one type over an arithmetic of numbers, and how
// numbers in lent memory are read as elements.
#![tactic(auto)]

ghost use Rattle.std.specs.Prelude.{◌≡◌, true, false, ◌≢◌};

pub mod arithmetic;
pub mod element;
pub mod field;

use field::Field;

// The element at a place, and zero where the number is no place. It never makes an element out of
// a number that is too large. Keys are tested for such numbers before any of them is read so.
pub fn read<F: Field>(place: u16) -> F
    ensures { result ≡ F.Field.places.at place }
{
    F::from_place(place).unwrap_or(F::zero())
}

// Whether an element is zero.
pub fn is_zero<F: Field>(x: F) -> bool
    ensures yes { result ≡ true → x ≡ F.Field.ops.zero }
    ensures no { result ≡ false → x ≢ F.Field.ops.zero }
{
    x.place() == 0
}

// c + x·y
pub fn add_product<F: Field>(c: F, x: F, y: F) -> F
    ensures { result ≡ F.Field.ops.add c (F.Field.ops.mul x y) }
{
    c.sum(x.product(y))
}
