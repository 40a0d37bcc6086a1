// The arithmetic of polynomials.
ghost use Rattle.std.specs.Prelude.{◌≡◌, ◌+◌, ◌-◌, ◌<◌, ◌≤◌, length, MatchOption};
ghost use Rattle.algebra.specs.Series.{Below, Degree};
ghost use Rattle.polys.specs.Coefs.{poly, coefs, Placed, mono, Lead, Division, OneDivision};

use fields::field::{BinaryField, Field};
use fields::{add_product, is_zero, read};

// The degree, where it is at least `stop`.
pub fn degree_from<F: BinaryField>(p: &[u16], stop: usize) -> Option<usize>
    ensures { MatchOption result (Below F.Field.ops stop (coefs F.Field.places p.now)) (λ n. (stop ≤ n) × (n < length p.now) × Degree F.Field.ops n (coefs F.Field.places p.now)) }
{
    // No `find`: the library's lemmas on it know of a range that goes up alone, and a proof of it would outgrow this loop's.
    for i in (stop..p.len()).rev() {
        if !is_zero(read::<F>(p[i])) {
            return Some(i);
        }
    }
    None
}

// The degree; absent for the zero polynomial, and only for it.
pub fn degree<F: BinaryField>(p: &[u16]) -> Option<usize>
    ensures { MatchOption result (coefs F.Field.places p.now ≡ (poly F.Field.ops).zero) (λ d. (d < length p.now) × Degree F.Field.ops d (coefs F.Field.places p.now)) }
{
    degree_from::<F>(p, 0)
}

// Adds p to a polynomial.
pub fn add<F: BinaryField>(into: &mut [u16], p: &[u16])
    requires { length p.now ≤ length into.old }
    ensures is { coefs F.Field.places into.new ≡ (poly F.Field.ops).add (coefs F.Field.places into.old) (coefs F.Field.places p.now) }
    ensures placed { Placed F.Field.BITS into.old → Placed F.Field.BITS into.new }
{
    for (i, &x) in p.iter().enumerate() {
        into[i] = read::<F>(into[i]).sum(read::<F>(x)).place();
    }
}

// Adds c·p to a polynomial.
pub fn add_multiple<F: BinaryField>(into: &mut [u16], p: &[u16], c: F)
    requires { length p.now ≤ length into.old }
    ensures is { coefs F.Field.places into.new ≡ (poly F.Field.ops).add (coefs F.Field.places into.old) ((poly F.Field.ops).mul (mono F.Field.ops c 0) (coefs F.Field.places p.now)) }
    ensures placed { Placed F.Field.BITS into.old → Placed F.Field.BITS into.new }
{
    for (i, &x) in p.iter().enumerate() {
        into[i] = add_product(read::<F>(into[i]), c, read::<F>(x)).place();
    }
}

// Adds c·X^shift·p to a polynomial.
pub fn add_scaled<F: BinaryField>(into: &mut [u16], p: &[u16], c: F, shift: usize)
    requires { shift + length p.now ≤ length into.old }
    ensures is { coefs F.Field.places into.new ≡ (poly F.Field.ops).add (coefs F.Field.places into.old) ((poly F.Field.ops).mul (mono F.Field.ops c shift) (coefs F.Field.places p.now)) }
    ensures placed { Placed F.Field.BITS into.old → Placed F.Field.BITS into.new }
{
    add_multiple(&mut into[shift..], p, c);
}

// The product of two polynomials.
#[tactic(auto, using(crate::proofs::Steps::product_none, crate::proofs::Places::placed_zeros))]
pub fn product<F: BinaryField>(out: &mut [u16], p: &[u16], q: &[u16])
    requires { length p.now + length q.now ≤ length out.old + 1 }
    ensures is { coefs F.Field.places out.new ≡ (poly F.Field.ops).mul (coefs F.Field.places p.now) (coefs F.Field.places q.now) }
    ensures placed { Placed F.Field.BITS out.new }
{
    out.fill(0);
    for (i, &c) in p.iter().enumerate() {
        add_scaled(out, q, read::<F>(c), i);
    }
}

// The inverse of the leading coefficient.
pub fn leading_inverse<F: BinaryField>(p: &[u16], n: usize) -> F
    requires { (n < length p.now) × (Degree F.Field.ops n (coefs F.Field.places p.now)) }
    ensures is { result ≡ F.Field.ops.inv (coefs F.Field.places p.now n) }
    ensures lead { Lead F.Field.ops n result (coefs F.Field.places p.now) }
{
    read::<F>(p[n]).inverse().unwrap()
}

// Division with remainder: `rem` holds the dividend, and then the remainder. The result is the
// degree of the divisor; absent where the divisor is zero.
pub fn divide<F: BinaryField>(rem: &mut [u16], quot: &mut [u16], d: &[u16]) -> Option<usize>
    requires { length rem.old ≤ length quot.old }
    ensures { MatchOption result ((coefs F.Field.places d.now ≡ (poly F.Field.ops).zero) × (rem.new ≡ rem.old) × (quot.new ≡ quot.old)) (λ n. Division F.Field.ops n (coefs F.Field.places rem.old) (coefs F.Field.places d.now) (coefs F.Field.places quot.new) (coefs F.Field.places rem.new) × Placed F.Field.BITS quot.new × (Placed F.Field.BITS rem.old → Placed F.Field.BITS rem.new)) }
{
    let k = degree::<F>(d)?;
    let e = leading_inverse::<F>(d, k);
    quot.fill(0);
    // By index, since what it goes over is written below n too.
    for n in (k..rem.len()).rev() {
        let c = read::<F>(rem[n]).product(e);
        quot[n - k] = c.place();
        add_scaled(rem, &d[..k + 1], c, n - k);
    }
    Some(k)
}

// Multiplies every coefficient by c.
pub fn scale<F: BinaryField>(p: &mut [u16], c: F)
    ensures is { coefs F.Field.places p.new ≡ (poly F.Field.ops).mul (mono F.Field.ops c 0) (coefs F.Field.places p.old) }
    ensures placed { Placed F.Field.BITS p.new }
{
    for x in p.iter_mut() {
        *x = c.product(read::<F>(*x)).place();
    }
}

// Divides a polynomial of degree n by its leading coefficient.
pub fn make_monic<F: BinaryField>(p: &mut [u16], n: usize)
    requires { (n < length p.old) × (Degree F.Field.ops n (coefs F.Field.places p.old)) }
    ensures is { coefs F.Field.places p.new ≡ (poly F.Field.ops).mul (mono F.Field.ops (F.Field.ops.inv (coefs F.Field.places p.old n)) 0) (coefs F.Field.places p.old) }
    ensures placed { Placed F.Field.BITS p.new }
{
    let e = leading_inverse::<F>(p, n);
    scale(p, e);
}

// Division has one quotient and one remainder.
pub fn one_division_stands<F: Field>() -> u8
    ensures { OneDivision F.Field.ops }
{
    0
}
