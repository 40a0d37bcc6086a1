// The functions of a word and the round of SHA-512.
#![tactic(auto, unfolding(crate::specs::Sha512::ch, crate::specs::Sha512::maj, crate::specs::Sha512::big_sigma0, crate::specs::Sha512::big_sigma1, crate::specs::Sha512::small_sigma0, crate::specs::Sha512::small_sigma1, crate::specs::Sha512::round))]

ghost use Rattle.std.specs.Prelude.{◌≡◌};
ghost use Rattle.sha512.specs.Sha512.{big_sigma0, big_sigma1, small_sigma0, small_sigma1, ch, maj, round};

// The six functions of FIPS 180-4: Ch, Maj, and the Sigmas. Each Sigma is one line with its own constants, which
// const parameters would only move to the callers.
fn choice(e: u64, f: u64, g: u64) -> u64
    ensures { result ≡ ch e f g }
{
    (e & f) ^ (!e & g)
}

fn majority(a: u64, b: u64, c: u64) -> u64
    ensures { result ≡ maj a b c }
{
    (a & b) ^ (a & c) ^ (b & c)
}

fn big_sigma_0(x: u64) -> u64
    ensures { result ≡ big_sigma0 x }
{
    x.rotate_right(28) ^ x.rotate_right(34) ^ x.rotate_right(39)
}

fn big_sigma_1(x: u64) -> u64
    ensures { result ≡ big_sigma1 x }
{
    x.rotate_right(14) ^ x.rotate_right(18) ^ x.rotate_right(41)
}

pub(crate) fn small_sigma_0(x: u64) -> u64
    ensures { result ≡ small_sigma0 x }
{
    x.rotate_right(1) ^ x.rotate_right(8) ^ (x >> 7)
}

pub(crate) fn small_sigma_1(x: u64) -> u64
    ensures { result ≡ small_sigma1 x }
{
    x.rotate_right(19) ^ x.rotate_right(61) ^ (x >> 6)
}

// One round on the working variables a to h.
pub(crate) fn one_round(v: &mut [u64; 8], k: u64, w: u64)
    ensures { v.new ≡ round v.old k w }
{
    let [a, b, c, d, e, f, g, h] = *v;
    let t1 = h
        .wrapping_add(big_sigma_1(e))
        .wrapping_add(choice(e, f, g))
        .wrapping_add(k)
        .wrapping_add(w);
    let t2 = big_sigma_0(a).wrapping_add(majority(a, b, c));
    *v = [t1.wrapping_add(t2), a, b, c, d.wrapping_add(t1), e, f, g];
}
