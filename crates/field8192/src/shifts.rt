// Products, inverses and square roots by shifts. Neither a branch nor a table depends on what is
// multiplied, so that loops over many products are vectorised.
ghost use Rattle.std.specs.Prelude.{◌≡◌, ◌<◌};
ghost use Rattle.field8192.specs.Product.{mul8192, square8192, inv8192, root8192};
ghost use Rattle.field8192.specs.Folds.{carryless_bits, folded};
ghost use Rattle.field8192.specs.Laws.{num_laws, num_roots};
ghost use Rattle.std.proofs.Common.{lit<};

use fields::arithmetic::Arithmetic;

// The arithmetic of the field of 8,192.
#[derive(Clone, Copy)]
pub struct Shifts;

impl Arithmetic for Shifts {
    const BITS: u32 = 13;

    ghost BITS = { 13 };

    ghost mul = { mul8192 };

    ghost inv = { inv8192 };

    ghost root = { root8192 };

    ghost fits = { lit< tt };

    ghost laws = { num_laws };

    ghost roots = { num_roots };

    // The highest bit of b, and then the twelve below it, three at a time.
    fn times(a: u16, b: u16) -> u16 {
        let mut r = a * (b >> 12);
        for i in 0..4u16 {
            r = fold(r * 8 ^ carryless(a, b >> (9 - 3 * i)));
        }
        r
    }

    // By a^8190, which is zero at zero.
    fn inverse_of(a: u16) -> u16 {
        let mut r = 1;
        for i in 0..12u8 {
            r = Shifts::times(a, square(r));
        }
        square(r)
    }

    // By a^4096.
    fn root_of(a: u16) -> u16 {
        let mut r = a;
        for n in 0..12u8 {
            r = square(r);
        }
        r
    }
}

// The product of a and the lowest three bits of b, not reduced.
fn carryless(a: u16, b: u16) -> u16
    requires { a < 8192 }
    ensures { result ≡ carryless_bits 3 a b }
{
    a * (b & 1) ^ a * (b & 2) ^ a * (b & 4)
}

// The terms from z^13 on, by z^13 = z^7 + z^6 + z^5 + 1.
fn fold(t: u16) -> u16
    ensures { result ≡ folded t }
{
    let h = t / 8192;
    t % 8192 ^ h ^ h * 32 ^ h * 64 ^ h * 128
}

// The square.
fn square(a: u16) -> u16
    requires { a < 8192 }
    ensures is { result ≡ square8192 a }
    ensures below { result < 8192 }
{
    Shifts::times(a, a)
}
