// The values of polynomials, by Horner's rule.
ghost use Rattle.std.specs.Prelude.{◌≡◌, ℕ, ◌<◌, ◌≤◌, length, slice_index};
ghost use Rattle.polys.specs.Values.{value};

use fields::field::{BinaryField, Field};
use fields::{add_product, read};

// The value at x.
pub fn value_at<F: BinaryField>(p: &[u16], x: F) -> F
    ensures { result ≡ value F.Field.ops F.Field.places p.now x }
{
    p.iter()
        .rev()
        .fold(F::zero(), |sum, &c| add_product(read::<F>(c), x, sum))
}

// A step of Horner's rule at every point x: each value v becomes c + x·v.
pub fn horner_steps<F: BinaryField>(values: &mut [u16], points: &[u16], c: F)
    requires { length points.now ≤ length values.old }
    ensures step { (j : ℕ) → j < length points.now → slice_index values.new j ≡ F.Field.places.num (F.Field.ops.add c (F.Field.ops.mul (F.Field.places.at (slice_index points.now j)) (F.Field.places.at (slice_index values.old j)))) }
    ensures rest { (j : ℕ) → length points.now ≤ j → slice_index values.new j ≡ slice_index values.old j }
{
    for (i, &x) in points.iter().enumerate() {
        values[i] = add_product(c, read::<F>(x), read::<F>(values[i])).place();
    }
}

// The values at many points; zeros stand after them.
pub fn values_at<F: BinaryField>(values: &mut [u16], p: &[u16], points: &[u16])
    requires { length points.now ≤ length values.old }
    ensures each { (j : ℕ) → j < length points.now → slice_index values.new j ≡ F.Field.places.num (value F.Field.ops F.Field.places p.now (F.Field.places.at (slice_index points.now j))) }
    ensures rest { (j : ℕ) → length points.now ≤ j → slice_index values.new j ≡ 0 }
{
    values.fill(0);
    for &c in p.iter().rev() {
        horner_steps(values, points, read::<F>(c));
    }
}
