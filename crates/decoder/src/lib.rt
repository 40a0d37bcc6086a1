// The decoder of Goppa codes: from a syndrome to the one vector of weight t that has it.
#![tactic(auto)]

ghost use Rattle.std.specs.Prelude.{◌≡◌, ℕ, ◌+◌, ◌*◌, ◌/◌, ◌^◌, ◌<◌, ◌≤◌, List, length, MatchOption, replicate};
ghost use Rattle.bits.specs.Packed.{vector};
ghost use Rattle.matrices.specs.Columns.{bits_of};
ghost use Rattle.polys.specs.Coefs.{Placed};
ghost use Rattle.decoder.specs.Codes.{CodeOf};
ghost use Rattle.decoder.specs.Errors.{OnlyError, NoError};

pub mod candidates;
pub mod codes;
pub mod syndromes;

use candidates::{is_error, mark_zeros};
use decoding::locate::locate_within;
use fields::field::{BinaryField, Field};
use goppa::code::Code;
use syndromes::read_syndrome;

// Writes the one error vector of the syndrome whose coefficients are in s, where it has one; zeros otherwise. `l` is for the locator.
fn decode_places<F: BinaryField>(
    code: &Code<'_, F>,
    s: &[u16],
    l: &mut [u16],
    work: &mut [u16],
    out: &mut [u8],
    t: usize,
) -> Option<()>
    requires code { (((zeros : List ℕ) × CodeOf F.Field.ops F.Field.places t code.now.g.now code.now.support.now zeros)) × ((length code.now.g.now ≡ t + 1) × ((2 ≤ t) × (1 ≤ length code.now.support.now))) }
    requires syndrome { (length s.now ≡ t) × ((Placed F.Field.BITS s.now) × (0 < F.Field.BITS)) }
    requires fits { (length code.now.support.now ≡ 8 * length out.old) × ((length l.old ≡ 2 * (t / 2 + 1)) × ((length code.now.support.now ≤ length work.old) × (17 * (t + 1) ≤ length work.old))) }
    ensures { MatchOption result (NoError F.Field.ops F.Field.places t code.now.g.now code.now.support.now (bits_of F.Field.BITS s.now) × (out.new ≡ replicate (length out.old) 0)) (λ _. OnlyError F.Field.ops F.Field.places t code.now.g.now code.now.support.now (bits_of F.Field.BITS s.now) (vector out.new)) }
{
    out.fill(0);
    locate_within::<F>(code.g, s, l, work, t)?;
    mark_zeros::<F>(l, code.support, work, out);
    let (sum, rest) = work.split_at_mut(t);
    let (col, _) = rest.split_at_mut(t);
    if !is_error(code, s, out, sum, col) {
        out.fill(0);
        return None;
    }
    Some(())
}

// Writes the error vector of a syndrome: the vector of weight t whose sum of columns is the syndrome, of which there is one at most. Where there is none the answer is absent, and `out` holds zeros.
pub fn decode<F: BinaryField>(
    code: &Code<'_, F>,
    syndrome: &[u8],
    work: &mut [u16],
    out: &mut [u8],
    t: usize,
) -> Option<()>
    requires code { (((zeros : List ℕ) × CodeOf F.Field.ops F.Field.places t code.now.g.now code.now.support.now zeros)) × ((length code.now.g.now ≡ t + 1) × ((2 ≤ t) × (1 ≤ length code.now.support.now))) }
    requires field { (0 < F.Field.BITS) × ((F.Field.BITS ≤ 16) × (F.Field.BITS * t < 2 ^ 32)) }
    requires fits { (F.Field.BITS * t ≤ 8 * length syndrome.now) × (length code.now.support.now ≡ 8 * length out.old) }
    requires work { (t + 2 * (t / 2 + 1) + length code.now.support.now ≤ length work.old) × (t + 2 * (t / 2 + 1) + 17 * (t + 1) ≤ length work.old) }
    ensures { MatchOption result (NoError F.Field.ops F.Field.places t code.now.g.now code.now.support.now (vector syndrome.now) × (out.new ≡ replicate (length out.old) 0)) (λ _. OnlyError F.Field.ops F.Field.places t code.now.g.now code.now.support.now (vector syndrome.now) (vector out.new)) }
{
    let (s, rest) = work.split_at_mut(t);
    let (l, rest) = rest.split_at_mut(2 * (t / 2 + 1));
    read_syndrome::<F>(syndrome, s);
    decode_places(code, s, l, rest, out, t)
}
