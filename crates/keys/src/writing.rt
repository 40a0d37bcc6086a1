// The parts of the keys, written one after the other.
ghost use Rattle.std.specs.Prelude.{◌≡◌, ℕ, ◌+◌, ◌-◌, ◌*◌, ◌^◌, ◌<◌, ◌≤◌, true, ◌++◌, length};
ghost use Rattle.bits.specs.Packed.{matrix};
ghost use Rattle.bits.specs.Words.{word_bytes};
ghost use Rattle.bits.specs.Rows.{matrix_bytes};
ghost use Rattle.bits.specs.Reduced.{reduced_of};
ghost use Rattle.bits.specs.Kernels.{independent};
ghost use Rattle.keys.specs.Secret.{written, public_key_of};

use bits::{join, write_words};
use levels::Sizes;
use levels::guards::Place;
use matrices::{copy_columns, echelon};
use shuffles::Seed;

// Writes the first columns of each row, 8 * some of them.
fn write_front(m: &[u8], width: usize, rows: usize, out: &mut [u8], some: usize)
    requires { (rows * width ≤ length m.now) × ((some ≤ width) × ((length out.old ≡ rows * some) × (0 < some))) }
    ensures { out.new ≡ matrix_bytes rows some (matrix width m.now) }
{
    copy_columns(m, width, rows, 0, out, some);
}

// Writes two seeds.
fn write_seeds(mixing: &Seed, decoy: &Seed, out: &mut [u8])
    requires { length out.old ≡ 64 }
    ensures { out.new ≡ mixing.now ++ decoy.now }
{
    join(mixing, decoy, out);
}

// Writes the support and the coefficients of g but for the last.
fn write_elements(support: &[Place], g: &[Place], out: &mut [u8])
    requires { length out.old ≡ 2 * length support.now + 2 * length g.now }
    ensures { out.new ≡ word_bytes support.now ++ word_bytes g.now }
{
    let at = 2 * support.len();
    write_words(support, &mut out[0..at]);
    write_words(g, &mut out[at..]);
}

// Writes the matrix S⁻¹, which stands in front of HP, and the seeds.
fn write_rest(sizes: &Sizes, hp: &[u8], mixing: &Seed, decoy: &Seed, out: &mut [u8])
    requires long { (sizes.now.rows * sizes.now.vector ≤ length hp.now) × (length out.old ≡ sizes.now.rows * sizes.now.body + 64) }
    ensures { out.new ≡ matrix_bytes sizes.now.rows sizes.now.body (matrix sizes.now.vector hp.now) ++ (mixing.now ++ decoy.now) }
{
    let at = sizes.rows * sizes.body;
    write_front(hp, sizes.vector, sizes.rows, &mut out[0..at], sizes.body);
    write_seeds(mixing, decoy, &mut out[at..]);
}

// Writes the secret key with these parts; the matrix is in front of HP.
pub fn write_secret(
    sizes: &Sizes,
    support: &[Place],
    g: &[Place],
    hp: &[u8],
    mixing: &Seed,
    decoy: &Seed,
    out: &mut [u8],
)
    requires long { (sizes.now.rows * sizes.now.vector ≤ length hp.now) × (length out.old ≡ sizes.now.secret_key) }
    requires code { (length support.now ≡ sizes.now.n) × (length g.now ≡ sizes.now.t + 1) }
    ensures { out.new ≡ written sizes.now support.now g.now (matrix sizes.now.vector hp.now) mixing.now decoy.now }
{
    let at = 2 * sizes.n + 2 * sizes.t;
    write_elements(support, &g[0..sizes.t], &mut out[0..at]);
    write_rest(sizes, hp, mixing, decoy, &mut out[at..]);
}

// Writes M, where [I | M] is the reduced row echelon form of HP, whose first columns are
// independent. What `hp` holds then is of no use.
pub fn write_public(sizes: &Sizes, hp: &mut [u8], out: &mut [u8])
    requires long { (sizes.now.rows * sizes.now.vector ≤ length hp.old) × (length out.old ≡ sizes.now.public_key) }
    requires front { independent sizes.now.rows (matrix sizes.now.vector hp.old) ≡ true }
    ensures { out.new ≡ public_key_of sizes.now (reduced_of sizes.now.rows (matrix sizes.now.vector hp.old)) }
{
    echelon(hp, sizes.body, sizes.vector - sizes.body, out).unwrap();
}
