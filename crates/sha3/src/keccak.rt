// The permutation Keccak-p[1600, 24]. The lane of column x and row y is at x + 5 y.
#![tactic(auto, unfolding(crate::specs::Keccak::lanes, crate::specs::Keccak::theta_lane))]

ghost use Rattle.std.specs.Prelude.{◌≡◌, ◌<◌};
ghost use Rattle.sha3.specs.Keccak.{parity, theta_lane, theta, rho_lane, rho, pi_lane, pi, chi_lane, chi, round, permuted};

// By how much rho rotates each lane, and the constant of each round.
const OFFSETS: [u32; 25] = [
    0, 1, 62, 28, 27, 36, 44, 6, 55, 20, 3, 10, 43, 25, 39, 41, 45, 15, 21, 8, 18, 2, 61, 56, 14,
];

const CONSTANTS: [u64; 24] = [
    0x1,
    0x8082,
    0x800000000000808a,
    0x8000000080008000,
    0x808b,
    0x80000001,
    0x8000000080008081,
    0x8000000000008009,
    0x8a,
    0x88,
    0x80008009,
    0x8000000a,
    0x8000808b,
    0x800000000000008b,
    0x8000000000008089,
    0x8000000000008003,
    0x8000000000008002,
    0x8000000000000080,
    0x800a,
    0x800000008000000a,
    0x8000000080008081,
    0x8000000000008080,
    0x80000001,
    0x8000000080008008,
];

// The parity of the column x.
fn parity_of(a: &[u64; 25], x: usize) -> u64
    requires { x < 5 }
    ensures { result ≡ parity a.now x }
{
    a[x] ^ a[x + 5] ^ a[x + 10] ^ a[x + 15] ^ a[x + 20]
}

// The lanes that a step gives, each by the step's function for the lane at i. They are written
// out, since the permutation by `array::from_fn` is 12 times slower.
macro_rules! lanes {
    ($at:ident, $a:ident) => {
        lanes!($at, $a, 0 1 2 3 4 5 6 7 8 9 10 11 12 13 14 15 16 17 18 19 20 21 22 23 24)
    };
    ($at:ident, $a:ident, $($i:literal)*) => {
        [$($at($a, $i)),*]
    };
}

fn theta_at(a: &[u64; 25], i: usize) -> u64
    requires { i < 25 }
    ensures { result ≡ theta_lane a.now i }
{
    a[i] ^ (parity_of(a, (i + 4) % 5) ^ parity_of(a, (i + 1) % 5).rotate_left(1))
}

fn theta(a: &[u64; 25]) -> [u64; 25]
    ensures { result ≡ theta a.now }
{
    lanes!(theta_at, a)
}

fn rho_at(a: &[u64; 25], i: usize) -> u64
    requires { i < 25 }
    ensures { result ≡ rho_lane a.now i }
{
    a[i].rotate_left(OFFSETS[i])
}

fn rho(a: &[u64; 25]) -> [u64; 25]
    ensures { result ≡ rho a.now }
{
    lanes!(rho_at, a)
}

fn pi_at(a: &[u64; 25], i: usize) -> u64
    requires { i < 25 }
    ensures { result ≡ pi_lane a.now i }
{
    a[(i % 5 + 3 * (i / 5)) % 5 + 5 * (i % 5)]
}

fn pi(a: &[u64; 25]) -> [u64; 25]
    ensures { result ≡ pi a.now }
{
    lanes!(pi_at, a)
}

fn chi_at(a: &[u64; 25], i: usize) -> u64
    requires { i < 25 }
    ensures { result ≡ chi_lane a.now i }
{
    let row = 5 * (i / 5);
    a[i] ^ (!a[row + (i + 1) % 5] & a[row + (i + 2) % 5])
}

fn chi(a: &[u64; 25]) -> [u64; 25]
    ensures { result ≡ chi a.now }
{
    lanes!(chi_at, a)
}

// A round: theta, rho, pi, chi, and then iota with the round's constant.
fn round(a: &mut [u64; 25], rc: u64)
    ensures { a.new ≡ round a.old rc }
{
    *a = chi(&pi(&rho(&theta(a))));
    a[0] ^= rc;
}

// The 24 rounds.
#[tactic(auto, using(std::proofs::lemmas::List::Sums::fold_more), unfolding(crate::specs::Keccak::permuted, crate::specs::Keccak::constants))]
pub fn permute(a: &mut [u64; 25])
    ensures { a.new ≡ permuted a.old }
{
    for rc in CONSTANTS {
        round(a, rc);
    }
}
