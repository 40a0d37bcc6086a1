// The stages of the decoder: from the polynomial of a syndrome to a polynomial that is zero at the points of its errors.
ghost use Rattle.std.specs.Prelude.{◌≡◌, ℕ, suc, ◌+◌, ◌-◌, ◌*◌, ◌/◌, ◌<◌, ◌≤◌, true, false, List, length, MatchOption, ◌≢◌};
ghost use Rattle.algebra.specs.Series.{Below, Degree};
ghost use Rattle.polys.specs.Coefs.{poly, coefs};
ghost use Rattle.polys.specs.Values.{value};
ghost use Rattle.patterson.specs.Points.{In};
ghost use Rattle.patterson.specs.Polys.{Splits};
ghost use Rattle.patterson.specs.Code.{GoppaCode};
ghost use Rattle.patterson.specs.Locator.{from_parts};
ghost use Rattle.patterson.specs.Euclid.{EuclidState};
ghost use Rattle.patterson.specs.Decoder.{candidate};
ghost use Rattle.decoding.specs.Stages.{Ready, Locates, NoErrors};

use crate::roots::{inverse_modulo, root_of_x, square_root_modulo};
use crate::steps::{common_divisor, product_modulo, quotient, shifted_syndrome};
use fields::field::{BinaryField, Field};
use fields::read;
use polys::arithmetic::product;
use polys::euclid::euclid;

// Writes v = 1 + X·s modulo g, the common divisors g1 of g and s and g2 of g and v, and s by g1, v by g2 and g by g1·g2. The results are the degrees of g1 and g2.
fn prepare<F: BinaryField>(
    g: &[u16],
    s: &[u16],
    v: &mut [u16],
    g1: &mut [u16],
    g2: &mut [u16],
    s1: &mut [u16],
    v2: &mut [u16],
    g12: &mut [u16],
    r: &mut [u16],
    a: &mut [u16],
    b: &mut [u16],
    wide: &mut [u16],
    t: usize,
) -> (usize, usize)
    requires code { (length g.now ≡ t + 1) × ((length s.now ≡ t) × ((coefs F.Field.places g.now) t ≡ F.Field.ops.one)) }
    requires results { (length v.old ≡ t + 1) × ((length g1.old ≡ t + 1) × ((length g2.old ≡ t + 1) × ((length s1.old ≡ t + 1) × (length v2.old ≡ t + 1)))) }
    requires work { (length g12.old ≡ t + 1) × ((length r.old ≡ t + 1) × ((length a.old ≡ t + 1) × ((length b.old ≡ t + 1) × (length wide.old ≡ 2 * (t + 1))))) }
    ensures { Ready F.Field.ops F.Field.places t g.now s.now v.new g1.new g2.new s1.new v2.new g12.new result.0 result.1 }
{
    shifted_syndrome::<F>(s, g, v, t);
    let n1 = common_divisor::<F>(g, s, g1, r, a, b, t);
    let n2 = common_divisor::<F>(g, v, g2, r, a, b, t);
    quotient::<F>(s, g1, s1, r, n1);
    quotient::<F>(v, g2, v2, r, n2);
    product::<F>(wide, g1, g2);
    quotient::<F>(g, wide, g12, r, n1 + n2);
    (n1, n2)
}

// Writes the square root of g1·v2 by g2·s1 modulo g12, of degree n.
fn key_root<F: BinaryField>(
    g1: &[u16],
    g2: &[u16],
    s1: &[u16],
    v2: &[u16],
    g12: &[u16],
    out: &mut [u16],
    w: &mut [u16],
    u: &mut [u16],
    even: &mut [u16],
    odd: &mut [u16],
    r: &mut [u16],
    a: &mut [u16],
    b: &mut [u16],
    wide: &mut [u16],
    quot: &mut [u16],
    n: usize,
)
    requires fits { (1 ≤ n) × ((n < length g12.now) × ((length g1.now ≡ length g12.now) × (length g2.now ≡ length g12.now))) }
    requires quotients { (length s1.now ≡ length g12.now) × ((length v2.now ≡ length g12.now) × ((length out.old ≡ length g12.now) × ((length w.old ≡ length g12.now) × (length u.old ≡ length g12.now)))) }
    requires parts { (length even.old ≡ length g12.now) × ((length odd.old ≡ length g12.now) × ((length r.old ≡ length g12.now) × ((length a.old ≡ length g12.now) × (length b.old ≡ length g12.now)))) }
    requires work { (length wide.old ≡ 2 * length g12.now) × (length quot.old ≡ 2 * length g12.now) }
    requires degree { Degree F.Field.ops n (coefs F.Field.places g12.now) }
    ensures under { Below F.Field.ops n (coefs F.Field.places out.new) }
    ensures root { (zs : List F) → Splits F.Field.ops n (value F.Field.ops F.Field.places g12.now) zs → ((z : F) → In z zs → F.Field.ops.mul ((value F.Field.ops F.Field.places g2.now) z) ((value F.Field.ops F.Field.places s1.now) z) ≢ F.Field.ops.zero) → (x : F) → (value F.Field.ops F.Field.places g12.now) x ≡ F.Field.ops.zero → F.Field.ops.mul (F.Field.ops.mul ((value F.Field.ops F.Field.places out.new) x) ((value F.Field.ops F.Field.places out.new) x)) (F.Field.ops.mul ((value F.Field.ops F.Field.places g2.now) x) ((value F.Field.ops F.Field.places s1.now) x)) ≡ F.Field.ops.mul ((value F.Field.ops F.Field.places g1.now) x) ((value F.Field.ops F.Field.places v2.now) x) }
{
    product_modulo::<F>(g2, s1, g12, w, wide, quot, n);
    inverse_modulo::<F>(g12, w, out, r, a, b, n);
    product_modulo::<F>(g1, v2, g12, w, wide, quot, n);
    product_modulo::<F>(w, b, g12, u, wide, quot, n);
    root_of_x::<F>(g12, w, even, odd, r, a, b, wide, quot, n);
    square_root_modulo::<F>(u, w, g12, out, even, odd, wide, quot, n);
}

// Euclid's rule from a polynomial of degree n and y, of a lower one, up to the first remainder below X^stop, which r then holds; b holds the factor of y in it. The result is the degree of the remainder before.
fn key_solution<F: BinaryField>(
    modulus: &[u16],
    y: &[u16],
    s: &mut [u16],
    r: &mut [u16],
    a: &mut [u16],
    b: &mut [u16],
    n: usize,
    stop: usize,
) -> usize
    requires fits { (stop ≤ n) × ((n < length modulus.now) × (length y.now ≡ length modulus.now)) }
    requires work { (length s.old ≡ length modulus.now) × ((length r.old ≡ length modulus.now) × ((length a.old ≡ length modulus.now) × (length b.old ≡ length modulus.now))) }
    requires degree { Degree F.Field.ops n (coefs F.Field.places modulus.now) }
    requires under { Below F.Field.ops n (coefs F.Field.places y.now) }
    ensures state { EuclidState F.Field.ops n (value F.Field.ops F.Field.places modulus.now) (value F.Field.ops F.Field.places y.now) result (value F.Field.ops F.Field.places s.new) (value F.Field.ops F.Field.places r.new) (value F.Field.ops F.Field.places a.new) (value F.Field.ops F.Field.places b.new) }
    ensures low { (Below F.Field.ops stop (coefs F.Field.places r.new)) × (Below F.Field.ops (suc (n - result)) (coefs F.Field.places b.new)) }
    ensures high { (stop ≤ result) × (result ≤ n) }
{
    s.copy_from_slice(modulus);
    r.copy_from_slice(y);
    euclid::<F>(s, r, a, b, n, stop)
}

// The square of coefficient i.
fn square_at<F: BinaryField>(p: &[u16], i: usize) -> u16
    requires { i < length p.now }
    ensures { result ≡ F.Field.places.num (F.Field.ops.mul ((coefs F.Field.places p.now) i) ((coefs F.Field.places p.now) i)) }
{
    let c = read::<F>(p[i]);
    c.product(c).place()
}

// Writes p² + X·q², where p and q lie below X^n.
fn join_squares<F: BinaryField>(p: &[u16], q: &[u16], out: &mut [u16], n: usize)
    requires fits { (n ≤ length p.now) × ((n ≤ length q.now) × (length out.old ≡ 2 * n)) }
    requires under { (Below F.Field.ops n (coefs F.Field.places p.now)) × (Below F.Field.ops n (coefs F.Field.places q.now)) }
    ensures { (x : F) → (value F.Field.ops F.Field.places out.new) x ≡ from_parts F.Field.ops (value F.Field.ops F.Field.places p.now) (value F.Field.ops F.Field.places q.now) x }
{
    // By places: a proof does not know what is written through `chunks_exact_mut`.
    for i in 0..n {
        out[2 * i] = square_at::<F>(p, i);
        out[2 * i + 1] = square_at::<F>(q, i);
    }
}

// Writes (a·g2)² + X·(b·g1)², where both products lie below X^n.
fn join_parts<F: BinaryField>(
    a: &[u16],
    b: &[u16],
    g1: &[u16],
    g2: &[u16],
    out: &mut [u16],
    wide: &mut [u16],
    other: &mut [u16],
    n: usize,
)
    requires fits { (length a.now + length g2.now ≤ length wide.old + 1) × ((length b.now + length g1.now ≤ length other.old + 1) × ((n ≤ length wide.old) × ((n ≤ length other.old) × (length out.old ≡ 2 * n)))) }
    requires under { (Below F.Field.ops n ((poly F.Field.ops).mul (coefs F.Field.places a.now) (coefs F.Field.places g2.now))) × (Below F.Field.ops n ((poly F.Field.ops).mul (coefs F.Field.places b.now) (coefs F.Field.places g1.now))) }
    ensures { (x : F) → (value F.Field.ops F.Field.places out.new) x ≡ candidate F.Field.ops (value F.Field.ops F.Field.places g1.now) (value F.Field.ops F.Field.places g2.now) (value F.Field.ops F.Field.places a.now) (value F.Field.ops F.Field.places b.now) x }
{
    product::<F>(wide, a, g2);
    product::<F>(other, b, g1);
    join_squares::<F>(wide, other, out, n);
}

// Whether the degrees of g1 and g2 are within their bounds; only then can a vector of weight t have the syndrome.
fn within_bounds(t: usize, n1: usize, n2: usize) -> bool
    ensures { elim result [ true ↦ (n1 < suc t / 2) × (n2 ≤ t / 2) | false ↦ ((n1 < suc t / 2) × (n2 ≤ t / 2) → ⊥) ] }
{
    n1 < t - t / 2 && n2 <= t / 2
}

// Writes a polynomial that is zero at the points of the errors of every vector of weight t with the syndrome s, and at no others: absent where no vector of weight t has the syndrome.
fn find_locator<F: BinaryField>(
    g: &[u16],
    s: &[u16],
    out: &mut [u16],
    v: &mut [u16],
    g1: &mut [u16],
    g2: &mut [u16],
    s1: &mut [u16],
    v2: &mut [u16],
    g12: &mut [u16],
    w: &mut [u16],
    u: &mut [u16],
    even: &mut [u16],
    odd: &mut [u16],
    r: &mut [u16],
    a: &mut [u16],
    b: &mut [u16],
    wide: &mut [u16],
    quot: &mut [u16],
    t: usize,
) -> Option<()>
    requires code { (length g.now ≡ t + 1) × ((length s.now ≡ t) × (((coefs F.Field.places g.now) t ≡ F.Field.ops.one) × ((2 ≤ t) × (length out.old ≡ 2 * (t / 2 + 1))))) }
    requires divisors { (length v.old ≡ t + 1) × ((length g1.old ≡ t + 1) × ((length g2.old ≡ t + 1) × ((length s1.old ≡ t + 1) × (length v2.old ≡ t + 1)))) }
    requires quotients { (length g12.old ≡ t + 1) × ((length w.old ≡ t + 1) × ((length u.old ≡ t + 1) × ((length even.old ≡ t + 1) × (length odd.old ≡ t + 1)))) }
    requires work { (length r.old ≡ t + 1) × ((length a.old ≡ t + 1) × ((length b.old ≡ t + 1) × ((length wide.old ≡ 2 * (t + 1)) × (length quot.old ≡ 2 * (t + 1))))) }
    ensures { (zs sup : List F) → GoppaCode F.Field.ops t (value F.Field.ops F.Field.places g.now) zs sup → MatchOption result (NoErrors F.Field.ops t (value F.Field.ops F.Field.places s.now) zs sup) (λ _. Locates F.Field.ops t (value F.Field.ops F.Field.places s.now) zs sup (value F.Field.ops F.Field.places out.new)) }
{
    let (n1, n2) = prepare::<F>(g, s, v, g1, g2, s1, v2, g12, r, a, b, wide, t);
    if !within_bounds(t, n1, n2) {
        return None;
    }
    let n = t - (n1 + n2);
    key_root::<F>(
        g1, g2, s1, v2, g12, v, w, u, even, odd, r, a, b, wide, quot, n,
    );
    key_solution::<F>(g12, v, w, r, a, b, n, t / 2 - n2 + 1);
    join_parts::<F>(r, b, g1, g2, out, wide, quot, t / 2 + 1);
    Some(())
}

// The same with its work memory in one piece.
pub fn locate_within<F: BinaryField>(
    g: &[u16],
    s: &[u16],
    out: &mut [u16],
    work: &mut [u16],
    t: usize,
) -> Option<()>
    requires code { (length g.now ≡ t + 1) × ((length s.now ≡ t) × (((coefs F.Field.places g.now) t ≡ F.Field.ops.one) × ((2 ≤ t) × (length out.old ≡ 2 * (t / 2 + 1))))) }
    requires work { 17 * (t + 1) ≤ length work.old }
    ensures { (zs sup : List F) → GoppaCode F.Field.ops t (value F.Field.ops F.Field.places g.now) zs sup → MatchOption result (NoErrors F.Field.ops t (value F.Field.ops F.Field.places s.now) zs sup) (λ _. Locates F.Field.ops t (value F.Field.ops F.Field.places s.now) zs sup (value F.Field.ops F.Field.places out.new)) }
{
    let l = t + 1;
    let (v, rest) = work.split_at_mut(l);
    let (g1, rest) = rest.split_at_mut(l);
    let (g2, rest) = rest.split_at_mut(l);
    let (s1, rest) = rest.split_at_mut(l);
    let (v2, rest) = rest.split_at_mut(l);
    let (g12, rest) = rest.split_at_mut(l);
    let (w, rest) = rest.split_at_mut(l);
    let (u, rest) = rest.split_at_mut(l);
    let (even, rest) = rest.split_at_mut(l);
    let (odd, rest) = rest.split_at_mut(l);
    let (r, rest) = rest.split_at_mut(l);
    let (a, rest) = rest.split_at_mut(l);
    let (b, rest) = rest.split_at_mut(l);
    let (wide, rest) = rest.split_at_mut(2 * l);
    let (quot, _) = rest.split_at_mut(2 * l);
    find_locator::<F>(
        g, s, out, v, g1, g2, s1, v2, g12, w, u, even, odd, r, a, b, wide, quot, t,
    )
}
