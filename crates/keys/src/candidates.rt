// The search for a usable mixing seed.
ghost use Rattle.std.specs.Prelude.{◌≡◌, ◌+◌, ◌*◌, ◌^◌, ◌<◌, ◌≤◌, length};
ghost use Rattle.bits.specs.Kernels.{independent};
ghost use Rattle.bits.specs.Search.{Found};
ghost use Rattle.shuffles.specs.Orders.{order};
ghost use Rattle.goppa.specs.Matrix.{mixed_matrix};
ghost use Rattle.keys.specs.Seeds.{seed_of, count_of};

use fields::field::{BinaryField, Field};
use goppa::code::Code;
use goppa::mixed::write_mixed;
use levels::guards::{Place, Position};
use matrices::settle;
use shuffles::{Seed, order_by};

// Seed i of a list.
pub fn seed_at(seeds: &[u8], i: usize) -> &Seed
    requires { i < count_of seeds.now }
    ensures { result.now ≡ seed_of seeds.now i }
{
    &seeds.as_chunks::<32>().0[i]
}

// The number of the first usable seed, absent where none is. A seed is usable if the square matrix of
// 8 * body rows in front of its HP has a pivot in each column. As a rule of the project the search is one
// labelled loop over seeds and pivots, so it does not call `matrices::usable`.
pub fn first_usable<F: BinaryField>(
    code: &Code<'_, F>,
    seeds: &[u8],
    body: usize,
    column: &mut [Place],
    square: &mut [u8],
    positions: &mut [Position],
) -> Option<usize>
    requires code { (length code.now.g.now ≡ length column.old + 1) × (1 ≤ length column.old) }
    requires field { (F.Field.BITS ≤ 16) × ((0 < F.Field.BITS) × (F.Field.BITS * length column.old ≡ 8 * body)) }
    requires rows { (8 * body * body ≤ length square.old) × (8 * body < 2 ^ 32) }
    requires order { (length positions.old ≡ length code.now.support.now) × ((8 * body ≤ length positions.old) × (length positions.old < 2 ^ 32)) }
    ensures { Found result (count_of seeds.now) (λ i. independent (8 * body) (mixed_matrix F.Field.ops F.Field.places (length column.old) code.now.g.now code.now.support.now (order (length positions.old) (seed_of seeds.now i)))) }
{
    let rows = 8 * body;
    'seeds: for (i, seed) in seeds.as_chunks::<32>().0.iter().enumerate() {
        order_by(positions, seed);
        write_mixed(code, positions, column, square, body);
        for c in 0..rows {
            if settle(square, body, rows, c, c).is_err() {
                continue 'seeds;
            }
        }
        return Some(i);
    }
    None
}
