// Columns of packed matrices that are filled from numbers.
ghost use Rattle.std.specs.Prelude.{◌≡◌, ℕ, ◌+◌, ◌*◌, ◌^◌, ◌<◌, ◌≤◌, length};
ghost use Rattle.bits.specs.Packed.{matrix};
ghost use Rattle.matrices.specs.Columns.{number_bit, bits_of, EntryAdded, ColumnAdded};

// Adds a bit to the one in a row and a column.
pub fn add_entry(m: &mut [u8], width: usize, row: usize, col: usize, b: bool)
    requires { (row * width + width ≤ length m.old) × (col < 8 * width) }
    ensures { EntryAdded (8 * width) row col b (matrix width m.old) (matrix width m.new) }
{
    bits::add_bit(&mut m[row * width..], col, b);
}

// Adds the lowest bits of a number, the one of weight 1 first, to a column from a row on.
fn add_number(m: &mut [u8], width: usize, row: usize, col: usize, x: u16, some: usize)
    requires rows { ((row + some) * width ≤ length m.old) × ((row + some < 2 ^ 32) × (some ≤ 16)) }
    requires column { col < 8 * width }
    ensures { ColumnAdded row (row + some) (8 * width) col (number_bit x) (matrix width m.old) (matrix width m.new) }
{
    for i in 0..some {
        add_entry(m, width, row + i, col, (x >> i) & 1 == 1);
    }
}

// Adds the bits of numbers, `some` of each, one number after the other, to a column from the first
// row on.
pub fn add_column(m: &mut [u8], width: usize, col: usize, numbers: &[u16], some: usize)
    requires rows { (some * length numbers.now * width ≤ length m.old) × ((some * length numbers.now < 2 ^ 32) × ((some ≤ 16) × (0 < some))) }
    requires column { col < 8 * width }
    ensures { ColumnAdded 0 (some * length numbers.now) (8 * width) col (bits_of some numbers.now) (matrix width m.old) (matrix width m.new) }
{
    for (r, &x) in numbers.iter().enumerate() {
        add_number(m, width, some * r, col, x, some);
    }
}
