// Shuffles by a seed, and what is built of them: the order of the positions of a vector, Perm and
// PermInv, and the error vector of a seed.
#![tactic(auto)]

ghost use Rattle.std.specs.Prelude.{◌≡◌, ℕ, ◌+◌, ◌*◌, ◌^◌, ◌<◌, ◌≤◌, Bool, map, length, take, count_by};
ghost use Rattle.std.specs.List.{range_with_len};
ghost use Rattle.std.proofs.Common.{rules};
ghost use Rattle.bits.specs.Vectors.{weight};
ghost use Rattle.bits.specs.Packed.{vector, packed};
ghost use Rattle.shuffles.specs.Shuffle.{shuffled};
ghost use Rattle.shuffles.specs.Orders.{order, among, perm, perm_inv, error_vector_of, Permutation, SameBits};

use levels::guards::{Place, Position};

// A seed: what a shuffle takes its words from.
pub type Seed = [u8; 32];

// An item that can be shuffled: it carries a number.
pub trait Numbered {
    ghost number: { Self → ℕ };

    fn number(&self) -> u32
        ensures { result ≡ number self.now };
}

// An item that a number below a limit makes.
pub trait Counted: Numbered + Drop {
    ghost limit: { ℕ };

    // The item with a number.
    fn counted(n: usize) -> Self
        requires { n < limit }
        ensures { Self.number result ≡ n };

    ghost limited: { limit ≤ 2 ^ 32 };
}

impl Numbered for Place {
    ghost number = { λ p. p };

    fn number(&self) -> u32 {
        u32::from(*self)
    }
}

impl Counted for Place {
    ghost limit = { 2 ^ 16 };

    ghost limited = { Prim.search rules };

    fn counted(n: usize) -> Self {
        n as u16
    }
}

impl Numbered for Position {
    ghost number = { λ p. p };

    fn number(&self) -> u32 {
        *self
    }
}

impl Counted for Position {
    ghost limit = { 2 ^ 32 };

    ghost limited = { Prim.search rules };

    fn counted(n: usize) -> Self {
        n as u32
    }
}

// Shuffles the items by a seed. It keeps each item as often as it came.
pub fn shuffle<T: Numbered>(items: &mut [T], seed: &Seed)
    ensures after { items.new ≡ shuffled seed.now items.old }
    ensures keeps { (p : T → Bool) → count_by p items.new ≡ count_by p items.old }
{
    let n = items.len();
    // By index, since an exchange needs both places.
    for i in (1..n).rev() {
        let w = (n - 1 - i) % 16;
        let j = usize::from(bits::word_at(seed, w)) % (i + 1);
        items.swap(i, j);
    }
}

// Writes the items with the numbers from one on.
pub fn count_from<T: Counted>(first: usize, items: &mut [T])
    requires { first + length items.old ≤ T.limit }
    ensures { map T.number items.new ≡ range_with_len first (length items.old) }
{
    for (i, x) in items.iter_mut().enumerate() {
        *x = T::counted(first + i);
    }
}

// Writes the order of the positions by a seed, which is a permutation of them.
pub fn order_by(positions: &mut [Position], seed: &Seed)
    requires { length positions.old < 2 ^ 32 }
    ensures after { positions.new ≡ order (length positions.old) seed.now }
    ensures permutes { Permutation (length positions.old) positions.new }
{
    count_from(0, positions);
    shuffle(positions, seed);
}

// Entry j of the vector goes to the place that stands at j in the order. `permute_back` stands by itself:
// one function for both would need a closure that is longer than the line in which they differ.
fn permute(order: &[Position], v: &[u8], out: &mut [u8])
    requires long { (length order.now ≡ 8 * length v.now) × (length out.old ≡ length v.now) }
    requires permutes { Permutation (length order.now) order.now }
    ensures after { out.new ≡ packed (length out.old) (perm order.now (vector v.now)) }
    ensures undone { SameBits (length order.now) (perm_inv order.now (vector out.new)) (vector v.now) }
{
    out.fill(0);
    for (j, &to) in order.iter().enumerate() {
        bits::add_bit(out, to as usize, bits::bit(v, j));
    }
}

// The entry at the place that stands at j in the order goes to j.
fn permute_back(order: &[Position], v: &[u8], out: &mut [u8])
    requires long { (length order.now ≡ 8 * length v.now) × (length out.old ≡ length v.now) }
    requires permutes { Permutation (length order.now) order.now }
    ensures after { out.new ≡ packed (length out.old) (perm_inv order.now (vector v.now)) }
    ensures undone { SameBits (length order.now) (perm order.now (vector out.new)) (vector v.now) }
{
    out.fill(0);
    for (j, &from) in order.iter().enumerate() {
        bits::add_bit(out, j, bits::bit(v, from as usize));
    }
}

// Perm of a vector by a seed: entry j goes to place l_j of the order. PermInv undoes it.
pub fn perm_by(positions: &mut [Position], seed: &Seed, v: &[u8], out: &mut [u8])
    requires long { (length positions.old ≡ 8 * length v.now) × ((length positions.old < 2 ^ 32) × (length out.old ≡ length v.now)) }
    ensures after { out.new ≡ packed (length out.old) (perm (order (length positions.old) seed.now) (vector v.now)) }
    ensures undone { SameBits (length positions.old) (perm_inv (order (length positions.old) seed.now) (vector out.new)) (vector v.now) }
{
    order_by(positions, seed);
    permute(positions, v, out);
}

// PermInv of a vector by a seed: entry l_j of the order goes to place j. Perm undoes it.
pub fn perm_inv_by(positions: &mut [Position], seed: &Seed, v: &[u8], out: &mut [u8])
    requires long { (length positions.old ≡ 8 * length v.now) × ((length positions.old < 2 ^ 32) × (length out.old ≡ length v.now)) }
    ensures after { out.new ≡ packed (length out.old) (perm_inv (order (length positions.old) seed.now) (vector v.now)) }
    ensures undone { SameBits (length positions.old) (perm (order (length positions.old) seed.now) (vector out.new)) (vector v.now) }
{
    order_by(positions, seed);
    permute_back(positions, v, out);
}

// Writes a vector with ones at the first t places of an order.
fn mark(order: &[Position], t: usize, out: &mut [u8])
    requires long { (length order.now ≡ 8 * length out.old) × (t ≤ length order.now) }
    requires permutes { Permutation (length order.now) order.now }
    ensures after { out.new ≡ packed (length out.old) (among (take t order.now)) }
    ensures weighs { weight (length order.now) (among (take t order.now)) ≡ t }
{
    out.fill(0);
    for &p in &order[..t] {
        bits::add_bit(out, p as usize, true);
    }
}

// GenErrVec: writes the error vector of a seed, which has t ones.
pub fn error_vector(positions: &mut [Position], t: usize, seed: &Seed, out: &mut [u8])
    requires long { (length positions.old ≡ 8 * length out.old) × ((length positions.old < 2 ^ 32) × (t ≤ length positions.old)) }
    ensures after { out.new ≡ packed (length out.old) (error_vector_of (length positions.old) t seed.now) }
    ensures weighs { weight (length positions.old) (error_vector_of (length positions.old) t seed.now) ≡ t }
{
    order_by(positions, seed);
    mark(positions, t, out);
}
