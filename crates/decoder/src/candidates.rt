// The candidate: the vector of the zeros of a locator in the support, and the tests of its weight and its syndrome.
ghost use Rattle.std.specs.Prelude.{◌≡◌, ℕ, ◌+◌, ◌*◌, ◌<◌, ◌≤◌, true, false, length, if◌then◌else◌, Decides, ◌==◌, slice_index};
ghost use Rattle.bits.specs.Packed.{vector};
ghost use Rattle.bits.specs.Vectors.{weight};
ghost use Rattle.matrices.specs.Columns.{bits_of};
ghost use Rattle.polys.specs.Coefs.{coefs, Placed};
ghost use Rattle.polys.specs.Values.{value};
ghost use Rattle.goppa.specs.Matrix.{column_place};
ghost use Rattle.decoder.specs.Sums.{column_sum};
ghost use Rattle.decoder.specs.Errors.{ErrorOf};

use bits::{add_bit, bit};
use fields::field::{BinaryField, Field};
use goppa::code::Code;
use polys::arithmetic::add;
use polys::values::values_at;

// Writes ones where a polynomial is zero on the support, and zeros elsewhere.
pub fn mark_zeros<F: BinaryField>(l: &[u16], support: &[u16], values: &mut [u16], out: &mut [u8])
    requires { (length support.now ≡ 8 * length out.old) × (length support.now ≤ length values.old) }
    ensures { (j : ℕ) → j < length support.now → vector out.new j ≡ (F.Field.places.num ((value F.Field.ops F.Field.places l.now) (F.Field.places.at (slice_index support.now j))) == 0) }
{
    values_at::<F>(values, l, support);
    out.fill(0);
    for (j, &v) in values[..support.len()].iter().enumerate() {
        add_bit(out, j, v == 0);
    }
}

// The number of ones at the first n places of a vector. It is a loop, since `filter` and `count` would take
// a proof about their runs that is longer than the loop's.
pub fn weight_of(v: &[u8], n: usize) -> usize
    requires { n ≤ 8 * length v.now }
    ensures { result ≡ weight n (vector v.now) }
{
    let mut ones = 0;
    for j in 0..n {
        if bit(v, j) {
            ones += 1;
        }
    }
    ones
}

// Adds the column of an entry of the support, where it is chosen, to a polynomial.
fn add_chosen<F: BinaryField>(
    code: &Code<'_, F>,
    j: usize,
    chosen: bool,
    sum: &mut [u16],
    col: &mut [u16],
)
    requires { (length code.now.g.now ≡ length sum.old + 1) × ((length col.old ≡ length sum.old) × ((1 ≤ length sum.old) × (j < length code.now.support.now))) }
    ensures sum { (r : ℕ) → r < length sum.old → (coefs F.Field.places sum.new) r ≡ F.Field.ops.add ((coefs F.Field.places sum.old) r) (if chosen then F.Field.places.at (column_place F.Field.ops F.Field.places (length sum.old) code.now.g.now (slice_index code.now.support.now j) r) else F.Field.ops.zero) }
    ensures placed { Placed F.Field.BITS sum.old → Placed F.Field.BITS sum.new }
{
    if !chosen {
        return;
    }
    code.column(j, col);
    add::<F>(sum, col);
}

// Writes the sum of the columns that a vector selects.
pub fn add_columns<F: BinaryField>(code: &Code<'_, F>, e: &[u8], sum: &mut [u16], col: &mut [u16])
    requires { (length code.now.g.now ≡ length sum.old + 1) × ((length col.old ≡ length sum.old) × ((1 ≤ length sum.old) × (length code.now.support.now ≤ 8 * length e.now))) }
    ensures { (r : ℕ) → r < length sum.old → slice_index sum.new r ≡ F.Field.places.num (column_sum F.Field.ops F.Field.places (length sum.old) code.now.g.now code.now.support.now (length code.now.support.now) (vector e.now) r) }
{
    sum.fill(0);
    // By numbers: a column and its bit go by the number of the entry, and no slice is read here.
    for j in 0..code.support.len() {
        add_chosen(code, j, bit(e, j), sum, col);
    }
}

// Whether a vector is an error vector for the syndrome whose coefficients are in s: both its weight and its syndrome are tested.
pub fn is_error<F: BinaryField>(
    code: &Code<'_, F>,
    s: &[u16],
    e: &[u8],
    sum: &mut [u16],
    col: &mut [u16],
) -> bool
    requires fits { (length code.now.g.now ≡ length s.now + 1) × ((length sum.old ≡ length s.now) × ((length col.old ≡ length s.now) × ((1 ≤ length s.now) × (length code.now.support.now ≡ 8 * length e.now)))) }
    requires syndrome { (Placed F.Field.BITS s.now) × (0 < F.Field.BITS) }
    ensures { Decides result (ErrorOf F.Field.ops F.Field.places (length s.now) code.now.g.now code.now.support.now (bits_of F.Field.BITS s.now) (vector e.now)) }
{
    if weight_of(e, code.support.len()) != s.len() {
        return false;
    }
    add_columns(code, e, sum, col);
    &*sum == s
}
