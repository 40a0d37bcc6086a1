// The zeros of a polynomial: whether one is in the support, and how many there are in the field.
ghost use Rattle.std.specs.Prelude.{◌≡◌, ℕ, ◌+◌, ◌^◌, ◌<◌, ◌≤◌, length, nat_eq, slice_index};
ghost use Rattle.bits.specs.Vectors.{weight};
ghost use Rattle.bits.specs.Search.{Found};
ghost use Rattle.keys.specs.Sound.{zero_at};

use fields::field::{BinaryField, Field};
use goppa::code::size;
use levels::guards::Place;
use polys::values::values_at;
use shuffles::count_from;

// The first zero.
pub fn first_zero(values: &[Place]) -> Option<usize>
    ensures { Found result (length values.now) (λ j. nat_eq (slice_index values.now j) 0) }
{
    values.iter().position(|&v| v == 0)
}

// How many numbers are zero.
pub fn count_zeros(values: &[Place]) -> usize
    ensures { result ≡ weight (length values.now) (λ j. nat_eq (slice_index values.now j) 0) }
{
    let mut found = 0;
    for &v in values {
        found += (v == 0) as usize;
    }
    found
}

// The first entry of a support that is a zero of g.
pub fn first_clash<F: BinaryField>(
    g: &[Place],
    support: &[Place],
    values: &mut [Place],
) -> Option<usize>
    requires { length values.old ≡ length support.now }
    ensures { Found result (length support.now) (λ j. zero_at F.Field.ops F.Field.places g.now (slice_index support.now j)) }
{
    values_at::<F>(values, g, support);
    first_zero(values)
}

// How many of the places from one on are zeros of g.
fn zeros_from<F: BinaryField>(
    g: &[Place],
    first: usize,
    points: &mut [Place],
    values: &mut [Place],
) -> usize
    requires { (length values.old ≡ length points.old) × (first + length points.old ≤ 2 ^ 16) }
    ensures { result ≡ weight (length points.old) (λ i. zero_at F.Field.ops F.Field.places g.now (first + i)) }
{
    count_from(first, points);
    values_at::<F>(values, g, points);
    count_zeros(values)
}

// How many zeros g has in the field. The places are tried as many at a time as half of the work
// memory takes.
pub fn zeros_in_field<F: BinaryField>(g: &[Place], work: &mut [Place]) -> usize
    requires { (2 ≤ length work.old) × (F.Field.BITS ≤ 16) }
    ensures { result ≡ weight (2 ^ F.Field.BITS) (zero_at F.Field.ops F.Field.places g.now) }
{
    let size = size::<F>();
    let half = work.len() / 2;
    let (points, values) = work.split_at_mut(half);
    let mut first = 0;
    let mut found = 0;
    // The last step is shorter than the others, which `step_by` would not say.
    while first < size {
        let some = half.min(size - first);
        found += zeros_from::<F>(g, first, &mut points[0..some], &mut values[0..some]);
        first += some;
    }
    found
}
