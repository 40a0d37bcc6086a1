// Inverses and square roots modulo a polynomial all of whose zeros are in the field, each a single one.
ghost use Rattle.std.specs.Prelude.{◌≡◌, ℕ, ◌+◌, ◌-◌, ◌*◌, ◌<◌, ◌≤◌, List, length, ◌≢◌};
ghost use Rattle.algebra.specs.Series.{Below, Degree};
ghost use Rattle.polys.specs.Coefs.{coefs};
ghost use Rattle.polys.specs.Values.{value};
ghost use Rattle.patterson.specs.Points.{In};
ghost use Rattle.patterson.specs.Polys.{Splits};
ghost use Rattle.patterson.specs.Locator.{from_parts};

use crate::steps::{copy, product_modulo};
use fields::field::{BinaryField, Field};
use fields::read;
use polys::arithmetic::{add, scale};
use polys::euclid::euclid;

// The inverse of an element, and zero for zero.
fn inverse_or_zero<F: BinaryField>(x: F) -> F
    ensures zero { x ≡ F.Field.ops.zero → result ≡ F.Field.ops.zero }
    ensures inverse { (x ≢ F.Field.ops.zero) → result ≡ F.Field.ops.inv x }
{
    x.inverse().unwrap_or(F::zero())
}

// Writes the inverse of q, of a lower degree, modulo a polynomial of degree n, to b: where the polynomial has n different zeros, and q is zero at none of them.
pub fn inverse_modulo<F: BinaryField>(
    modulus: &[u16],
    q: &[u16],
    s: &mut [u16],
    r: &mut [u16],
    a: &mut [u16],
    b: &mut [u16],
    n: usize,
)
    requires fits { (1 ≤ n) × ((n < length modulus.now) × (length q.now ≤ length modulus.now)) }
    requires work { (length s.old ≡ length modulus.now) × ((length r.old ≡ length modulus.now) × ((length a.old ≡ length modulus.now) × (length b.old ≡ length modulus.now))) }
    requires degree { Degree F.Field.ops n (coefs F.Field.places modulus.now) }
    requires under { Below F.Field.ops n (coefs F.Field.places q.now) }
    ensures under { Below F.Field.ops n (coefs F.Field.places b.new) }
    ensures values { (zs : List F) → Splits F.Field.ops n (value F.Field.ops F.Field.places modulus.now) zs → ((z : F) → In z zs → (value F.Field.ops F.Field.places q.now) z ≢ F.Field.ops.zero) → (x : F) → (value F.Field.ops F.Field.places modulus.now) x ≡ F.Field.ops.zero → F.Field.ops.mul ((value F.Field.ops F.Field.places b.new) x) ((value F.Field.ops F.Field.places q.now) x) ≡ F.Field.ops.one }
{
    s.copy_from_slice(modulus);
    copy::<F>(q, r);
    euclid::<F>(s, r, a, b, n, 1);
    let e = inverse_or_zero(read::<F>(r[0]));
    scale(b, e);
}

// Writes the square roots of every second coefficient from `start` on.
fn every_other_root<F: BinaryField>(p: &[u16], start: usize, out: &mut [u16])
    requires { (start ≤ 1) × ((1 ≤ length p.now) × (length p.now ≤ 2 * length out.old)) }
    ensures { (j : ℕ) → F.Field.ops.mul ((coefs F.Field.places out.new) j) ((coefs F.Field.places out.new) j) ≡ (coefs F.Field.places p.now) (2 * j + start) }
{
    out.fill(0);
    let rest = p.len() - start;
    // By places: a `zip` with `iter_mut` would say nothing of what was written.
    for j in 0..rest / 2 + rest % 2 {
        out[j] = read::<F>(p[2 * j + start]).square_root().place();
    }
}

// Takes p apart: it is even² + X·odd².
pub fn roots_apart<F: BinaryField>(p: &[u16], even: &mut [u16], odd: &mut [u16])
    requires { (1 ≤ length p.now) × ((length p.now ≤ 2 * length even.old) × (length p.now ≤ 2 * length odd.old)) }
    ensures even { (j : ℕ) → F.Field.ops.mul ((coefs F.Field.places even.new) j) ((coefs F.Field.places even.new) j) ≡ (coefs F.Field.places p.now) (2 * j) }
    ensures odd { (j : ℕ) → F.Field.ops.mul ((coefs F.Field.places odd.new) j) ((coefs F.Field.places odd.new) j) ≡ (coefs F.Field.places p.now) (2 * j + 1) }
    ensures values { (x : F) → (value F.Field.ops F.Field.places p.now) x ≡ from_parts F.Field.ops (value F.Field.ops F.Field.places even.new) (value F.Field.ops F.Field.places odd.new) x }
{
    every_other_root::<F>(p, 0, even);
    every_other_root::<F>(p, 1, odd);
}

// Writes a square root of X modulo a polynomial of degree n that has n different zeros: the polynomial is even² + X·odd², so it is even by odd.
pub fn root_of_x<F: BinaryField>(
    modulus: &[u16],
    out: &mut [u16],
    even: &mut [u16],
    odd: &mut [u16],
    r: &mut [u16],
    a: &mut [u16],
    b: &mut [u16],
    wide: &mut [u16],
    quot: &mut [u16],
    n: usize,
)
    requires fits { (1 ≤ n) × ((n < length modulus.now) × ((length out.old ≡ length modulus.now) × ((length even.old ≡ length modulus.now) × (length odd.old ≡ length modulus.now)))) }
    requires work { (length r.old ≡ length modulus.now) × ((length a.old ≡ length modulus.now) × ((length b.old ≡ length modulus.now) × ((length wide.old ≡ 2 * length modulus.now) × (length quot.old ≡ 2 * length modulus.now)))) }
    requires degree { Degree F.Field.ops n (coefs F.Field.places modulus.now) }
    ensures under { Below F.Field.ops n (coefs F.Field.places out.new) }
    ensures root { (zs : List F) → Splits F.Field.ops n (value F.Field.ops F.Field.places modulus.now) zs → (x : F) → (value F.Field.ops F.Field.places modulus.now) x ≡ F.Field.ops.zero → F.Field.ops.mul ((value F.Field.ops F.Field.places out.new) x) ((value F.Field.ops F.Field.places out.new) x) ≡ x }
{
    roots_apart::<F>(modulus, even, odd);
    inverse_modulo::<F>(modulus, odd, out, r, a, b, n);
    product_modulo::<F>(even, b, modulus, out, wide, quot, n);
}

// Writes the square root of u, below X^n, modulo a polynomial of degree n, from a square root of X.
pub fn square_root_modulo<F: BinaryField>(
    u: &[u16],
    root: &[u16],
    modulus: &[u16],
    out: &mut [u16],
    even: &mut [u16],
    odd: &mut [u16],
    wide: &mut [u16],
    quot: &mut [u16],
    n: usize,
)
    requires fits { (n < length modulus.now) × ((length u.now ≡ length modulus.now) × ((length root.now ≡ length modulus.now) × (length out.old ≡ length modulus.now))) }
    requires work { (length even.old ≡ length modulus.now) × ((length odd.old ≡ length modulus.now) × ((length wide.old ≡ 2 * length modulus.now) × (length quot.old ≡ 2 * length modulus.now))) }
    requires degree { Degree F.Field.ops n (coefs F.Field.places modulus.now) }
    requires under { Below F.Field.ops n (coefs F.Field.places u.now) }
    ensures under { Below F.Field.ops n (coefs F.Field.places out.new) }
    ensures root { (x : F) → (value F.Field.ops F.Field.places modulus.now) x ≡ F.Field.ops.zero → F.Field.ops.mul ((value F.Field.ops F.Field.places root.now) x) ((value F.Field.ops F.Field.places root.now) x) ≡ x → F.Field.ops.mul ((value F.Field.ops F.Field.places out.new) x) ((value F.Field.ops F.Field.places out.new) x) ≡ (value F.Field.ops F.Field.places u.now) x }
{
    roots_apart::<F>(u, even, odd);
    product_modulo::<F>(root, odd, modulus, out, wide, quot, n);
    add::<F>(out, even);
}
