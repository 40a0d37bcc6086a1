// The polynomial of a syndrome: m bits for each coefficient, the one of weight 1 first.
ghost use Rattle.std.specs.Prelude.{◌≡◌, ℕ, ◌+◌, ◌*◌, ◌^◌, ◌<◌, ◌≤◌, length};
ghost use Rattle.bits.specs.Packed.{vector};
ghost use Rattle.matrices.specs.Columns.{number_bit, bits_of};
ghost use Rattle.polys.specs.Coefs.{Placed};

use bits::bit;
use fields::field::{BinaryField, Field};

// The number whose bits stand in a vector from a place on, the one of weight 1 first.
fn number_at(bytes: &[u8], from: usize, count: usize) -> u16
    requires { (count ≤ 16) × ((from + count ≤ 8 * length bytes.now) × (from + count < 2 ^ 64)) }
    ensures below { result < 2 ^ count }
    ensures bits { (i : ℕ) → i < count → number_bit result i ≡ vector bytes.now (from + i) }
{
    let mut x = 0u16;
    for i in (0..count).rev() {
        x = 2 * x + bit(bytes, from + i) as u16;
    }
    x
}

// Writes the coefficients of the polynomial that a syndrome holds.
pub fn read_syndrome<F: BinaryField>(syndrome: &[u8], s: &mut [u16])
    requires fits { (F.Field.BITS * length s.old ≤ 8 * length syndrome.now) × (F.Field.BITS * length s.old < 2 ^ 32) }
    requires field { (0 < F.Field.BITS) × (F.Field.BITS ≤ 16) }
    ensures placed { Placed F.Field.BITS s.new }
    ensures bits { (i : ℕ) → i < F.Field.BITS * length s.old → bits_of F.Field.BITS s.new i ≡ vector syndrome.now i }
{
    let m = F::BITS as usize;
    for (r, x) in s.iter_mut().enumerate() {
        *x = number_at(syndrome, m * r, m);
    }
}
