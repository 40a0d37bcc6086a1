// The check matrix of a code, with its columns in the order that a mixing seed gives.
ghost use Rattle.std.specs.Prelude.{◌≡◌, ℕ, ◌+◌, ◌*◌, ◌^◌, ◌<◌, ◌≤◌, length, slice_index};
ghost use Rattle.bits.specs.Packed.{matrix};
ghost use Rattle.matrices.specs.Columns.{ColumnAdded};
ghost use Rattle.goppa.specs.Matrix.{column_bits, mixed_matrix};

use crate::code::Code;
use fields::field::{BinaryField, Field};
use levels::guards::Position;
use matrices::columns::add_column;

// Adds the column of an entry of the support to a column of a packed matrix.
fn add_code_column<F: BinaryField>(
    code: &Code<'_, F>,
    k: usize,
    column_of: &mut [u16],
    m: &mut [u8],
    width: usize,
    j: usize,
)
    requires code { (length code.now.g.now ≡ length column_of.old + 1) × ((1 ≤ length column_of.old) × (k < length code.now.support.now)) }
    requires field { (F.Field.BITS ≤ 16) × ((0 < F.Field.BITS) × (F.Field.BITS * length column_of.old < 2 ^ 32)) }
    requires rows { (F.Field.BITS * length column_of.old * width ≤ length m.old) × (j < 8 * width) }
    ensures { ColumnAdded 0 (F.Field.BITS * length column_of.old) (8 * width) j (column_bits F.Field.ops F.Field.places (length column_of.old) code.now.g.now (slice_index code.now.support.now k)) (matrix width m.old) (matrix width m.new) }
{
    code.column(k, column_of);
    add_column(m, width, j, column_of, F::BITS as usize);
}

// Writes the first columns of HP, as many as a row has bits, over what `m` holds.
pub fn write_mixed<F: BinaryField>(
    code: &Code<'_, F>,
    order: &[Position],
    column_of: &mut [u16],
    m: &mut [u8],
    width: usize,
)
    requires code { (length code.now.g.now ≡ length column_of.old + 1) × (1 ≤ length column_of.old) }
    requires field { (F.Field.BITS ≤ 16) × ((0 < F.Field.BITS) × (F.Field.BITS * length column_of.old < 2 ^ 32)) }
    requires rows { (F.Field.BITS * length column_of.old * width ≤ length m.old) × (8 * width < 2 ^ 32) }
    requires order { (8 * width ≤ length order.now) × (((j : ℕ) → j < 8 * width → slice_index order.now j < length code.now.support.now)) }
    ensures { (i j : ℕ) → i < F.Field.BITS * length column_of.old → j < 8 * width → matrix width m.new i j ≡ mixed_matrix F.Field.ops F.Field.places (length column_of.old) code.now.g.now code.now.support.now order.now i j }
{
    m.fill(0);
    for (j, &at) in order[..8 * width].iter().enumerate() {
        add_code_column(code, at as usize, column_of, m, width, j);
    }
}
