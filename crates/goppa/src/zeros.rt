// The monic polynomial with given zeros.
ghost use Rattle.std.specs.Prelude.{◌≡◌, ℕ, ◌+◌, ◌-◌, ◌<◌, ◌≤◌, map, length};
ghost use Rattle.algebra.specs.Series.{Below};
ghost use Rattle.polys.specs.Coefs.{poly, coefs};
ghost use Rattle.polys.specs.Values.{value};
ghost use Rattle.goppa.specs.Zeros.{linear, from_zeros, differences, Monic, Zeros, AllPlaces};

use fields::field::{BinaryField, Field};
use fields::{add_product, read};

// Multiplies a polynomial, whose last coefficient is zero, by X - a.
pub fn times_linear<F: BinaryField>(p: &mut [u16], a: F)
    requires { (1 ≤ length p.old) × (Below F.Field.ops (length p.old - 1) (coefs F.Field.places p.old)) }
    ensures product { coefs F.Field.places p.new ≡ (poly F.Field.ops).mul (linear F.Field.ops a) (coefs F.Field.places p.old) }
    ensures written { AllPlaces F.Field.BITS p.new }
{
    let mut before = F::zero();
    for x in p.iter_mut() {
        let c = read::<F>(*x);
        *x = add_product(before, a, c).place();
        before = c;
    }
}

// Writes the product of the X - b over the zeros b.
pub fn goppa_polynomial<F: BinaryField>(zeros: &[u16], g: &mut [u16])
    requires { length g.old ≡ length zeros.now + 1 }
    ensures product { coefs F.Field.places g.new ≡ from_zeros F.Field.ops (map F.Field.places.at zeros.now) }
    ensures monic { Monic F.Field.ops (length zeros.now) (coefs F.Field.places g.new) }
    ensures values { (x : F) → value F.Field.ops F.Field.places g.new x ≡ differences F.Field.ops (map F.Field.places.at zeros.now) x }
    ensures zeros { Zeros F.Field.ops F.Field.places (value F.Field.ops F.Field.places g.new) zeros.now }
    ensures written { AllPlaces F.Field.BITS g.new }
{
    g.fill(0);
    g[0] = F::one().place();
    for &b in zeros.iter().rev() {
        times_linear(g, read::<F>(b));
    }
}
