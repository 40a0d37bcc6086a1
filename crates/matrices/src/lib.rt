// Packed matrices in lent memory, row after row: products with packed vectors, and elimination. A matrix
// is its bytes and the width of a row and no struct of them: that was tried, and each method that writes
// then has to say that width and number of rows stay, which is longer than the two parameters.
#![tactic(auto)]

ghost use Rattle.std.specs.Prelude.{◌≡◌, ℕ, ◌+◌, ◌-◌, ◌*◌, ◌/◌, ◌^◌, ◌<◌, ◌≤◌, true, false, length, MatchBool, MatchOption, MatchResult, is_ok, ◌==◌, ◌≢◌, slice_index, EachIndex, bit_xor};
ghost use Rattle.bits.specs.Vectors.{◌⊕◌, dot, times, systematic};
ghost use Rattle.bits.specs.Packed.{vector, matrix, packed};
ghost use Rattle.bits.specs.Kernels.{Same, Independent, Dependent, independent, Reduced, Echelon, Ranked};
ghost use Rattle.bits.specs.Rank.{rank_of};
ghost use Rattle.bits.specs.Reduced.{reduced_of};
ghost use Rattle.bits.specs.Elimination.{Added, LowRows, Pivoted, Settled};
ghost use Rattle.matrices.specs.Rows.{RowWithin, PlaceWithin, PivotAt, Apart, Summed, Copied, ColumnsCopied, SettledOrNone};

pub mod columns;

use std::simd::prelude::*;

// The columns are dependent.
#[derive(Clone, Copy, Debug, PartialEq, Eq)]
pub struct DependentColumns;

// The sum of the products of the bits of two vectors.
fn parity(row: &[u8], v: &[u8]) -> bool
    requires { length row.now ≡ length v.now }
    ensures { result ≡ dot (8 * length v.now) (vector row.now) (vector v.now) }
{
    let mut sum: u8 = 0;
    for (x, y) in row.iter().zip(v) {
        sum ^= x & y;
    }
    sum.count_ones() % 2 == 1
}

// Adds the product of a matrix, of as many rows as `out` has bits, and a vector to `out`. A row may have
// no bytes, which `chunks_exact` would not take.
pub fn add_product(m: &[u8], v: &[u8], out: &mut [u8])
    requires { (8 * length out.old * length v.now ≤ length m.now) × (8 * length out.old < 2 ^ 63) }
    ensures { (i : ℕ) → i < 8 * length out.old → vector out.new i ≡ (vector out.old i ⊕ dot (8 * length v.now) (matrix (length v.now) m.now i) (vector v.now)) }
{
    let width = v.len();
    for i in 0..8 * out.len() {
        let at = i * width;
        bits::add_bit(out, i, parity(&m[at..at + width], v));
    }
}

// [I | M] times a vector, of which I takes as many bits as `out` has.
pub fn systematic_product(m: &[u8], v: &[u8], out: &mut [u8])
    requires small { (length out.old ≤ length v.now) × (8 * length out.old < 2 ^ 63) }
    requires within { 8 * length out.old * (length v.now - length out.old) ≤ length m.now }
    ensures { out.new ≡ packed (length out.old) (times (8 * length v.now) (systematic (8 * length out.old) (matrix (length v.now - length out.old) m.now)) (vector v.now)) }
{
    let front = out.len();
    out.copy_from_slice(&v[0..front]);
    add_product(m, &v[front..], out);
}

// The bit in a row and a column.
pub fn entry(m: &[u8], width: usize, row: usize, col: usize) -> bool
    requires { row * width + col / 8 < length m.now }
    ensures { result ≡ matrix width m.now row col }
{
    bits::bit(&m[row * width..], col)
}

// Adds bytes to as many others. It is by place, since after a `zip` with `iter_mut` a proof knows nothing of
// what was written.
fn add_rest(into: &mut [u8], from: &[u8])
    requires { length into.old ≡ length from.now }
    ensures { EachIndex into.new (λ k. slice_index into.new k ≡ bit_xor (slice_index into.old k) (slice_index from.now k)) }
{
    for (i, x) in into.iter_mut().enumerate() {
        *x ^= from[i];
    }
}

// The same sixteen bytes at a time, while there are as many: byte by byte it takes four times as long.
fn add_bytes(into: &mut [u8], from: &[u8])
    requires { length into.old ≡ length from.now }
    ensures { EachIndex into.new (λ k. slice_index into.new k ≡ bit_xor (slice_index into.old k) (slice_index from.now k)) }
{
    let whole = into.len() / 16;
    for i in 0..whole {
        let at = 16 * i;
        let x = u8x16::from_slice(&into[at..]) ^ u8x16::from_slice(&from[at..]);
        x.copy_to_slice(&mut into[at..]);
    }
    let at = 16 * whole;
    add_rest(&mut into[at..], &from[at..]);
}

// Adds row `from` to row `into`, another row, where a row has `width` bytes.
pub fn add_row(m: &mut [u8], width: usize, from: usize, into: usize)
    requires within { (RowWithin width from m.old) × (RowWithin width into m.old) }
    requires other { from ≢ into }
    ensures { Added (8 * width) from into (matrix width m.old) (matrix width m.new) }
{
    if from < into {
        let (front, back) = m.split_at_mut(into * width);
        add_bytes(
            &mut back[..width],
            &front[from * width..from * width + width],
        );
    } else {
        let (front, back) = m.split_at_mut(from * width);
        add_bytes(
            &mut front[into * width..into * width + width],
            &back[..width],
        );
    }
}

// The first row from k on that has a one in column c.
fn pivot(m: &[u8], width: usize, rows: usize, k: usize, c: usize) -> Option<usize>
    requires { PlaceWithin width rows k c m.now }
    ensures { MatchOption result ((i : ℕ) → k ≤ i → i < rows → matrix width m.now i c ≡ false) (λ p. PivotAt width rows k c p m.now) }
{
    (k..rows).find(
        |&i|
            requires { i * width + c / 8 < length m.now }
            ensures { result ≡ matrix width m.entry.now i c }
        { entry(m, width, i, c) },
    )
}

// Gets a one into row k of column c, from row p, the first from k on that has one.
fn set_pivot(m: &mut [u8], width: usize, rows: usize, k: usize, c: usize, p: usize)
    requires within { PlaceWithin width rows k c m.old }
    requires low { LowRows rows k c (matrix width m.old) }
    requires first { PivotAt width rows k c p m.old }
    ensures { Pivoted rows (8 * width) k c (matrix width m.old) (matrix width m.new) }
{
    if p != k {
        add_row(m, width, p, k);
    }
}

// Clears column c but for row k, which has a one there.
fn clear_column(m: &mut [u8], width: usize, rows: usize, k: usize, c: usize)
    requires within { (PlaceWithin width rows k c m.old) × (k < rows) }
    requires low { LowRows rows k c (matrix width m.old) }
    requires one { matrix width m.old k c ≡ true }
    ensures { Settled rows (8 * width) k c (matrix width m.old) (matrix width m.new) }
{
    for i in 0..rows {
        if i != k && entry(m, width, i, c) {
            add_row(m, width, k, i);
        }
    }
}

// Makes column c the unit column of row k, and leaves the columns before it. It fails, and changes
// nothing, if there is no one from row k on.
pub fn settle(
    m: &mut [u8],
    width: usize,
    rows: usize,
    k: usize,
    c: usize,
) -> Result<(), DependentColumns>
    requires within { PlaceWithin width rows k c m.old }
    requires low { LowRows rows k c (matrix width m.old) }
    ensures { SettledOrNone result width rows k c m.old m.new }
{
    let Some(p) = pivot(m, width, rows, k, c) else {
        return Err(DependentColumns);
    };
    set_pivot(m, width, rows, k, c, p);
    clear_column(m, width, rows, k, c);
    Ok(())
}

// The reduced row echelon form [I | M], in place, unless the first `rows` columns are dependent.
pub fn reduce(m: &mut [u8], width: usize, rows: usize) -> Result<(), DependentColumns>
    requires { (rows * width ≤ length m.old) × (rows ≤ 8 * width) }
    ensures { MatchResult result (λ _. Reduced rows (8 * width) (matrix width m.old) (matrix width m.new)) (λ _. Dependent rows (matrix width m.old)) }
{
    for c in 0..rows {
        settle(m, width, rows, c, c)?;
    }
    Ok(())
}

// The number of columns that get a pivot: they are no sum of earlier ones.
fn count_pivots(m: &mut [u8], width: usize, rows: usize) -> usize
    requires { (rows * width ≤ length m.old) × (8 * width < 2 ^ 63) }
    ensures { Ranked rows (matrix width m.old) (8 * width) result }
{
    let mut k = 0;
    for c in 0..8 * width {
        if settle(m, width, rows, k, c).is_ok() {
            k += 1;
        }
    }
    k
}

// The rank: the number of columns that are no sum of earlier ones. What `m` holds then is of no use.
pub fn rank(m: &mut [u8], width: usize, rows: usize) -> usize
    requires { (rows * width ≤ length m.old) × (8 * width < 2 ^ 63) }
    ensures value { Ranked rows (matrix width m.old) (8 * width) result }
    ensures number { result ≡ rank_of rows (matrix width m.old) (8 * width) }
    ensures only { (k : ℕ) → Ranked rows (matrix width m.old) (8 * width) k → k ≡ result }
    ensures square { rows ≡ 8 * width → (result == rows) ≡ independent rows (matrix width m.old) }
{
    count_pivots(m, width, rows)
}

// Whether a square matrix of 8 * front rows has an inverse: its columns are independent. What `m`
// holds then is of no use.
pub fn usable(m: &mut [u8], front: usize) -> bool
    requires { (8 * front * front ≤ length m.old) × (8 * front < 2 ^ 63) }
    ensures which { MatchBool result (Independent (8 * front) (matrix front m.old)) (Dependent (8 * front) (matrix front m.old)) }
    ensures decided { result ≡ independent (8 * front) (matrix front m.old) }
{
    reduce(m, front, 8 * front).is_ok()
}

// Copies `some` bytes of m from `from` on to those of out from `to` on.
fn copy_part(m: &[u8], from: usize, out: &mut [u8], to: usize, some: usize)
    requires { (from + some ≤ length m.now) × (to + some ≤ length out.old) }
    ensures { Copied some from to m.now out.old out.new }
{
    out[to..to + some].copy_from_slice(&m[from..from + some]);
}

// Copies the columns from 8 * skip on, 8 * some of them, of each row into a matrix whose rows have
// `some` bytes. Rows may have no bytes, which `chunks_exact` would not take.
pub fn copy_columns(m: &[u8], width: usize, rows: usize, skip: usize, out: &mut [u8], some: usize)
    requires { (rows * width ≤ length m.now) × ((skip + some ≤ width) × (rows * some ≤ length out.old)) }
    ensures { ColumnsCopied width some skip rows m.now out.old out.new }
{
    for row in 0..rows {
        copy_part(m, row * width + skip, out, row * some, some);
    }
}

// The matrix M of the reduced row echelon form [I | M] of a matrix of 8 * front rows of
// front + back bytes, written to `out`. It fails, and leaves `out`, if the first columns are dependent.
// What `hp` holds then is of no use.
pub fn echelon(
    hp: &mut [u8],
    front: usize,
    back: usize,
    out: &mut [u8],
) -> Result<(), DependentColumns>
    requires small { (8 * front < 2 ^ 63) × (front + back < 2 ^ 63) }
    requires within { (8 * front * (front + back) ≤ length hp.old) × (8 * front * back ≤ length out.old) }
    ensures form { MatchResult result (λ _. Echelon (8 * front) (8 * back) (matrix (front + back) hp.old) (matrix back out.new)) (λ _. (Dependent (8 * front) (matrix (front + back) hp.old)) × (out.new ≡ out.old)) }
    ensures reduced { MatchResult result (λ _. Same (8 * front) (8 * back) (reduced_of (8 * front) (matrix (front + back) hp.old)) (matrix back out.new)) (λ _. Unit {0}) }
    ensures rest { (k : ℕ) → 8 * front * back ≤ k → slice_index out.new k ≡ slice_index out.old k }
    ensures decided { is_ok result ≡ independent (8 * front) (matrix (front + back) hp.old) }
{
    let width = front + back;
    let rows = 8 * front;
    reduce(hp, width, rows)?;
    copy_columns(hp, width, rows, front, out, back);
    Ok(())
}
