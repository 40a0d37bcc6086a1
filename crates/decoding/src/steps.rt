// The steps of the decoder on polynomials, in the words of its theorem: values at points, and bounds on degrees.
ghost use Rattle.std.specs.Prelude.{◌≡◌, ℕ, ◌+◌, ◌-◌, ◌*◌, ◌<◌, ◌≤◌, List, length};
ghost use Rattle.algebra.specs.Series.{Below, Degree};
ghost use Rattle.polys.specs.Coefs.{coefs};
ghost use Rattle.polys.specs.Values.{value};
ghost use Rattle.patterson.specs.Points.{In};
ghost use Rattle.patterson.specs.Polys.{Splits};
ghost use Rattle.patterson.specs.Syndrome.{shifted};
ghost use Rattle.patterson.specs.Euclid.{CommonDivisor};

use fields::field::{BinaryField, Field};
use fields::read;
use polys::arithmetic::{add, add_multiple, add_scaled, divide, product};
use polys::euclid::gcd;

// Copies a polynomial into memory that may be longer.
pub fn copy<F: BinaryField>(p: &[u16], into: &mut [u16])
    requires { length p.now ≤ length into.old }
    ensures { (coefs F.Field.places into.new) ≡ (coefs F.Field.places p.now) }
{
    into.fill(0);
    add::<F>(into, p);
}

// Writes 1 + X·s, reduced modulo g, which is monic of degree t.
pub fn shifted_syndrome<F: BinaryField>(s: &[u16], g: &[u16], v: &mut [u16], t: usize)
    requires fits { (length s.now ≡ t) × ((length g.now ≡ t + 1) × (length v.old ≡ t + 1)) }
    requires monic { (coefs F.Field.places g.now) t ≡ F.Field.ops.one }
    ensures under { Below F.Field.ops t (coefs F.Field.places v.new) }
    ensures values { (x : F) → (value F.Field.ops F.Field.places g.now) x ≡ F.Field.ops.zero → (value F.Field.ops F.Field.places v.new) x ≡ shifted F.Field.ops (value F.Field.ops F.Field.places s.now) x }
{
    v.fill(0);
    v[0] = F::one().place();
    add_scaled(v, s, F::one(), 1);
    let c = read::<F>(v[t]);
    add_multiple(v, g, c);
}

// The greatest common divisor of g, of degree t, and q, of a lower one. The result is its degree.
pub fn common_divisor<F: BinaryField>(
    g: &[u16],
    q: &[u16],
    out: &mut [u16],
    r: &mut [u16],
    a: &mut [u16],
    b: &mut [u16],
    t: usize,
) -> usize
    requires fits { (length g.now ≡ t + 1) × ((length q.now ≤ t + 1) × (length out.old ≡ t + 1)) }
    requires work { (length r.old ≡ t + 1) × ((length a.old ≡ t + 1) × (length b.old ≡ t + 1)) }
    requires degree { Degree F.Field.ops t (coefs F.Field.places g.now) }
    requires under { Below F.Field.ops t (coefs F.Field.places q.now) }
    ensures divisor { (zs : List F) → ((z : F) → In z zs → (value F.Field.ops F.Field.places g.now) z ≡ F.Field.ops.zero) → CommonDivisor F.Field.ops t (value F.Field.ops F.Field.places g.now) (value F.Field.ops F.Field.places q.now) zs result (value F.Field.ops F.Field.places out.new) }
    ensures degree { (result ≤ t) × (Degree F.Field.ops result (coefs F.Field.places out.new)) }
{
    out.copy_from_slice(g);
    copy::<F>(q, r);
    gcd::<F>(out, r, a, b, t)
}

// The quotient and the remainder of p by d, of degree n.
pub fn quotient<F: BinaryField>(p: &[u16], d: &[u16], out: &mut [u16], rest: &mut [u16], n: usize)
    requires fits { (length p.now ≤ length rest.old) × (length rest.old ≤ length out.old) }
    requires degree { Degree F.Field.ops n (coefs F.Field.places d.now) }
    ensures values { (x : F) → (value F.Field.ops F.Field.places p.now) x ≡ F.Field.ops.add (F.Field.ops.mul ((value F.Field.ops F.Field.places out.new) x) ((value F.Field.ops F.Field.places d.now) x)) ((value F.Field.ops F.Field.places rest.new) x) }
    ensures rest { Below F.Field.ops n (coefs F.Field.places rest.new) }
    ensures degree { (t : ℕ) → Degree F.Field.ops t (coefs F.Field.places p.now) → n ≤ t → Degree F.Field.ops (t - n) (coefs F.Field.places out.new) }
{
    copy::<F>(p, rest);
    let _ = divide::<F>(rest, out, d);
}

// The product of p and q modulo a polynomial of degree n.
pub fn product_modulo<F: BinaryField>(
    p: &[u16],
    q: &[u16],
    modulus: &[u16],
    out: &mut [u16],
    wide: &mut [u16],
    quot: &mut [u16],
    n: usize,
)
    requires fits { (length p.now + length q.now ≤ length wide.old + 1) × ((length wide.old ≡ length quot.old) × ((length out.old ≤ length wide.old) × (n ≤ length out.old))) }
    requires degree { Degree F.Field.ops n (coefs F.Field.places modulus.now) }
    ensures under { Below F.Field.ops n (coefs F.Field.places out.new) }
    ensures values { (x : F) → (value F.Field.ops F.Field.places modulus.now) x ≡ F.Field.ops.zero → (value F.Field.ops F.Field.places out.new) x ≡ F.Field.ops.mul ((value F.Field.ops F.Field.places p.now) x) ((value F.Field.ops F.Field.places q.now) x) }
{
    product::<F>(wide, p, q);
    let _ = divide::<F>(wide, quot, modulus);
    out.copy_from_slice(&wide[..out.len()]);
}
