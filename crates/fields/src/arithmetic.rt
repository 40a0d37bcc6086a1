// The arithmetic of a field whose elements are the numbers below 2^m.
ghost use Rattle.std.specs.Prelude.{◌≡◌, ℕ, ◌^◌, ◌<◌, ◌≤◌};
ghost use Rattle.algebra.specs.Numbers.{NumLaws, NumRoots};

// Products, inverses and square roots of numbers below 2^m. Their sum is the bitwise `^`.
pub trait Arithmetic: Copy {
    // The number m.
    const BITS: u32;

    ghost BITS: { ℕ };

    ghost mul: { ℕ → ℕ → ℕ };

    ghost inv: { ℕ → ℕ };

    ghost root: { ℕ → ℕ };

    fn times(a: u16, b: u16) -> u16
        requires { (a < 2 ^ BITS) × (b < 2 ^ BITS) }
        ensures is { result ≡ mul a b }
        ensures below { result < 2 ^ BITS };

    // The inverse of a number that is not zero.
    fn inverse_of(a: u16) -> u16
        requires { a < 2 ^ BITS }
        ensures is { result ≡ inv a }
        ensures below { result < 2 ^ BITS };

    fn root_of(a: u16) -> u16
        requires { a < 2 ^ BITS }
        ensures is { result ≡ root a }
        ensures below { result < 2 ^ BITS };

    ghost fits: { BITS ≤ 16 };

    ghost laws: { NumLaws BITS mul inv };

    ghost roots: { NumRoots BITS mul root };
}
