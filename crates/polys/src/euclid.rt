// Euclid's rule, and what follows from it: the greatest common divisor and the inverse modulo a
// polynomial. Its four slices stay loose: a struct that borrows them proves its own methods, but who lends them to it
// learns no more than their lengths once it is gone.
ghost use Rattle.std.specs.Prelude.{◌≡◌, ◌+◌, ◌-◌, ◌<◌, ◌≤◌, length, MatchOption, ◌≢◌};
ghost use Rattle.algebra.specs.Series.{Below, Degree};
ghost use Rattle.polys.specs.Coefs.{poly, coefs, Placed};
ghost use Rattle.polys.specs.Euclid.{Reduced, Euclid, Gcd, Inverse, Shared, OneGcd, OneInverse};
ghost use Rattle.polys.specs.Values.{value, AtPoints};

use crate::arithmetic::{add_scaled, degree_from, leading_inverse, make_monic, scale};
use fields::field::{BinaryField, Field};
use fields::read;

// Takes s, of degree n at most, modulo r, of degree k, and adds the same multiple of b to a.
pub fn reduce<F: BinaryField>(
    s: &mut [u16],
    r: &[u16],
    a: &mut [u16],
    b: &[u16],
    n: usize,
    k: usize,
)
    requires fits { (k ≤ n) × ((k < length r.now) × ((n < length s.old) × ((n - k) + length b.now ≤ length a.old))) }
    requires top { Degree F.Field.ops k (coefs F.Field.places r.now) }
    requires under { Below F.Field.ops (n + 1) (coefs F.Field.places s.old) }
    ensures rest { Below F.Field.ops k (coefs F.Field.places s.new) }
    ensures same { Reduced F.Field.ops (n + 1 - k) (coefs F.Field.places s.old) (coefs F.Field.places r.now) (coefs F.Field.places a.old) (coefs F.Field.places b.now) (coefs F.Field.places s.new) (coefs F.Field.places a.new) }
{
    let e = leading_inverse::<F>(r, k);
    // By index, since what it goes over is written below j too.
    for j in (k..n + 1).rev() {
        let c = read::<F>(s[j]).product(e);
        add_scaled(s, &r[..k + 1], c, j - k);
        add_scaled(a, b, c, j - k);
    }
}

// Euclid's rule from s, of degree `top`, and r, of a lower one, up to the first remainder below
// X^stop, which r then holds; s holds the one before, and a and b hold the factors of the first r in
// them. The result is the degree of s.
pub fn euclid<F: BinaryField>(
    s: &mut [u16],
    r: &mut [u16],
    a: &mut [u16],
    b: &mut [u16],
    top: usize,
    stop: usize,
) -> usize
    requires fits { (stop ≤ top) × ((top < length s.old) × ((length r.old ≡ length s.old) × ((length b.old ≡ length a.old) × (top < length a.old + stop)))) }
    requires degree { Degree F.Field.ops top (coefs F.Field.places s.old) }
    requires under { Below F.Field.ops top (coefs F.Field.places r.old) }
    ensures rule { Euclid F.Field.ops top (coefs F.Field.places s.old) (coefs F.Field.places r.old) (coefs F.Field.places s.new) (coefs F.Field.places r.new) (coefs F.Field.places a.new) (coefs F.Field.places b.new) result }
    ensures points { AtPoints F.Field.ops (value F.Field.ops F.Field.places s.old) (value F.Field.ops F.Field.places r.old) (value F.Field.ops F.Field.places s.new) (value F.Field.ops F.Field.places r.new) (value F.Field.ops F.Field.places a.new) (value F.Field.ops F.Field.places b.new) }
    ensures factor { coefs F.Field.places b.new ≢ (poly F.Field.ops).zero }
    ensures last { (stop ≤ result) × (Below F.Field.ops stop (coefs F.Field.places r.new)) }
{
    a.fill(0);
    b.fill(0);
    b[0] = F::one().place();
    let mut n = top;
    while let Some(k) = degree_from::<F>(r, stop) {
        reduce::<F>(s, r, a, &b[..top - n + 1], n, k);
        s.swap_with_slice(r);
        a.swap_with_slice(b);
        n = k;
    }
    n
}

// The monic greatest common divisor of s, of degree `top`, and r, of a lower one, in s: where r is
// zero, s made monic. The result is its degree.
pub fn gcd<F: BinaryField>(
    s: &mut [u16],
    r: &mut [u16],
    a: &mut [u16],
    b: &mut [u16],
    top: usize,
) -> usize
    requires fits { (top < length s.old) × ((length r.old ≡ length s.old) × ((length b.old ≡ length a.old) × (top < length a.old))) }
    requires degree { Degree F.Field.ops top (coefs F.Field.places s.old) }
    requires under { Below F.Field.ops top (coefs F.Field.places r.old) }
    ensures is { Gcd F.Field.ops top result (coefs F.Field.places s.old) (coefs F.Field.places r.old) (coefs F.Field.places s.new) }
    ensures placed { Placed F.Field.BITS s.new }
{
    let n = euclid::<F>(s, r, a, b, top, 0);
    make_monic::<F>(s, n);
    n
}

// Writes the inverse of r, of a lower degree than s, modulo s, whose degree is `top`, to b: absent where r has none.
pub fn inverse<F: BinaryField>(
    s: &mut [u16],
    r: &mut [u16],
    a: &mut [u16],
    b: &mut [u16],
    top: usize,
) -> Option<()>
    requires fits { (1 ≤ top) × ((top < length s.old) × ((length r.old ≡ length s.old) × ((length b.old ≡ length a.old) × (top ≤ length a.old)))) }
    requires degree { Degree F.Field.ops top (coefs F.Field.places s.old) }
    requires under { Below F.Field.ops top (coefs F.Field.places r.old) }
    ensures { MatchOption result (Shared F.Field.ops (coefs F.Field.places s.old) (coefs F.Field.places r.old)) (λ _. Inverse F.Field.ops top (coefs F.Field.places s.old) (coefs F.Field.places r.old) (coefs F.Field.places b.new) × Placed F.Field.BITS b.new) }
{
    euclid::<F>(s, r, a, b, top, 1);
    let e = read::<F>(r[0]).inverse()?;
    scale(b, e);
    Some(())
}

// Two polynomials have one greatest common divisor.
pub fn one_gcd_stands<F: Field>() -> u8
    ensures { OneGcd F.Field.ops }
{
    0
}

// A polynomial has one inverse at most.
pub fn one_inverse_stands<F: Field>() -> u8
    ensures { OneInverse F.Field.ops }
{
    0
}
