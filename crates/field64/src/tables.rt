// Products, inverses and square roots by logarithms to the base z, whose powers are all elements but
// zero.
ghost use Rattle.std.specs.Prelude.{◌≡◌, ◌%◌, ◌<◌, get_or};
ghost use Rattle.field64.specs.Tables.{mul64, inv64, root64, powers, logs};
ghost use Rattle.field64.specs.Laws.{num_laws, num_roots};
ghost use Rattle.std.proofs.Common.{lit<};

use fields::arithmetic::Arithmetic;

// The powers of z, from z^0 on.
const POWERS: [u16; 63] = [
    1, 2, 4, 8, 16, 32, 3, 6, 12, 24, 48, 35, 5, 10, 20, 40, 19, 38, 15, 30, 60, 59, 53, 41, 17,
    34, 7, 14, 28, 56, 51, 37, 9, 18, 36, 11, 22, 44, 27, 54, 47, 29, 58, 55, 45, 25, 50, 39, 13,
    26, 52, 43, 21, 42, 23, 46, 31, 62, 63, 61, 57, 49, 33,
];

// The logarithm of each element, by its place; at 0, which has none, 0.
const LOGS: [u16; 64] = [
    0, 0, 1, 6, 2, 12, 7, 26, 3, 32, 13, 35, 8, 48, 27, 18, 4, 24, 33, 16, 14, 52, 36, 54, 9, 45,
    49, 38, 28, 41, 19, 56, 5, 62, 25, 11, 34, 31, 17, 47, 15, 23, 53, 51, 37, 44, 55, 40, 10, 61,
    46, 30, 50, 22, 39, 43, 29, 60, 42, 21, 20, 59, 57, 58,
];

// z^n, which is z^(n + 63).
fn power(n: usize) -> u16
    ensures { result ≡ get_or powers (n % 63) 0 }
{
    POWERS[n % 63]
}

// The logarithm of an element.
fn log(a: u16) -> u16
    requires { a < 64 }
    ensures is { result ≡ get_or logs a 0 }
    ensures below { result < 63 }
{
    LOGS[a as usize]
}

// The arithmetic of the field of 64.
#[derive(Clone, Copy)]
pub struct Tables;

impl Arithmetic for Tables {
    const BITS: u32 = 6;

    ghost BITS = { 6 };

    ghost mul = { mul64 };

    ghost inv = { inv64 };

    ghost root = { root64 };

    ghost fits = { lit< tt };

    ghost laws = { num_laws };

    ghost roots = { num_roots };

    fn times(a: u16, b: u16) -> u16 {
        if a == 0 || b == 0 {
            return 0;
        }
        power(log(a) as usize + log(b) as usize)
    }

    fn inverse_of(a: u16) -> u16 {
        power(63 - log(a) as usize)
    }

    // Half the logarithm, or half of it and 63 where it is odd.
    fn root_of(a: u16) -> u16 {
        if a == 0 {
            return 0;
        }
        let l = log(a) as usize;
        power((l + l % 2 * 63) / 2)
    }
}
