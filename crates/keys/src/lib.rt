// Key pairs: making them from seeds. The definitions say what makes a written secret key sound, which
// public key seals to it, and what it means that a ticket seals a vector to it.
#![tactic(auto)]

ghost use Rattle.std.specs.Prelude.{◌≡◌, ◌≤◌, length, Ok, Err};
ghost use Rattle.levels.specs.Names.{level_of};
ghost use Rattle.levels.specs.Table.{sizes_of};
ghost use Rattle.levels.specs.Work.{Cleared};
ghost use Rattle.levels.specs.Rows.{work_of};
ghost use Rattle.keys.specs.Calls.{lengths_of, checked_at, tried_at, MadeAt};

pub mod candidates;
pub mod checks;
pub mod making;
pub mod writing;

use checks::{Lengths, check};
use field64::element::E64;
use field8192::element::E8192;
use levels::Level;
use levels::faults::Fault;
use levels::guards::{BytesGuard, PlacesGuard, PositionsGuard, Work};
use making::{Seeds, make_with};

// Makes a pair over the field of a level, once the tests have passed.
fn make_at(
    level: Level,
    seeds: &Seeds<'_>,
    public_key: &mut [u8],
    secret_key: &mut [u8],
    work: &mut Work<'_>,
) -> Result<(), Fault>
    requires work { ((sizes_of level).work_bytes ≤ length work.old.bytes.now) × (((sizes_of level).work_places ≤ length work.old.places.now) × ((sizes_of level).work_places ≤ length work.old.positions.now)) }
    requires keys { (length public_key.old ≡ (sizes_of level).public_key) × (length secret_key.old ≡ (sizes_of level).secret_key) }
    ensures answer { result ≡ tried_at (Ok level) seeds.now.code.now seeds.now.mixing.now }
    ensures gives { elim result [ Ok _ ↦ MadeAt (Ok level) seeds.now.code.now seeds.now.mixing.now seeds.now.decoy.now public_key.new secret_key.new | Err _ ↦ (public_key.new ≡ public_key.old) × (secret_key.new ≡ secret_key.old) ] }
    ensures lengths { work_of work.new.bytes.now work.new.places.now work.new.positions.now ≡ work_of work.old.bytes.now work.old.places.now work.old.positions.now }
{
    let sizes = level.sizes();
    match level {
        Level::Sample => make_with::<E64>(&sizes, seeds, public_key, secret_key, work),
        Level::Level128 | Level::Level192 | Level::Level256 => make_with::<E8192>(
            &sizes, seeds, public_key, secret_key, work,
        ),
    }
}

// Tests, and then makes.
fn make_within(
    level: &str,
    code_seed: &[u8],
    mixing_seeds: &[u8],
    decoy_seed: &[u8],
    public_key: &mut [u8],
    secret_key: &mut [u8],
    work: &mut Work<'_>,
) -> Result<(), Fault>
    ensures answer { result ≡ tried_at (checked_at (level_of level.now) (lengths_of code_seed.now mixing_seeds.now decoy_seed.now public_key.old secret_key.old) (work_of work.old.bytes.now work.old.places.now work.old.positions.now)) code_seed.now mixing_seeds.now }
    ensures gives { elim result [ Ok _ ↦ MadeAt (level_of level.now) code_seed.now mixing_seeds.now decoy_seed.now public_key.new secret_key.new | Err _ ↦ (public_key.new ≡ public_key.old) × (secret_key.new ≡ secret_key.old) ] }
    ensures lengths { work_of work.new.bytes.now work.new.places.now work.new.positions.now ≡ work_of work.old.bytes.now work.old.places.now work.old.positions.now }
{
    let buffers = Lengths {
        code_seed: code_seed.len(),
        mixing_seeds: mixing_seeds.len(),
        decoy_seed: decoy_seed.len(),
        public_key: public_key.len(),
        secret_key: secret_key.len(),
    };
    let level = check(level, buffers, work.lengths())?;
    let Some(code_seed) = code_seed.as_array() else {
        unreachable!()
    };
    let Some(decoy_seed) = decoy_seed.as_array() else {
        unreachable!()
    };
    let seeds = Seeds {
        code: code_seed,
        mixing: mixing_seeds,
        decoy: decoy_seed,
    };
    make_at(level, &seeds, public_key, secret_key, work)
}

// Makes a pair of keys from a code seed, a list of mixing seeds, of which the first usable one is
// taken, and a decoy seed. A refusal leaves both keys as they were. All work memory is zero in the
// end, whatever it held.
pub fn make(
    level: &str,
    code_seed: &[u8],
    mixing_seeds: &[u8],
    decoy_seed: &[u8],
    public_key: &mut [u8],
    secret_key: &mut [u8],
    work: Work<'_>,
) -> Result<(), Fault>
    ensures answer { result ≡ tried_at (checked_at (level_of level.now) (lengths_of code_seed.now mixing_seeds.now decoy_seed.now public_key.old secret_key.old) (work_of work.entry.bytes.now work.entry.places.now work.entry.positions.now)) code_seed.now mixing_seeds.now }
    ensures gives { elim result [ Ok _ ↦ MadeAt (level_of level.now) code_seed.now mixing_seeds.now decoy_seed.now public_key.new secret_key.new | Err _ ↦ (public_key.new ≡ public_key.old) × (secret_key.new ≡ secret_key.old) ] }
    ensures bytes { Cleared work.entry.bytes.now work.exit.0.now }
    ensures places { Cleared work.entry.places.now work.exit.1.0.now }
    ensures positions { Cleared work.entry.positions.now work.exit.1.1.0.now }
{
    let Work {
        bytes,
        places,
        positions,
    } = work;
    let b = BytesGuard { bytes };
    let e = PlacesGuard { places };
    let p = PositionsGuard { positions };
    make_within(
        level,
        code_seed,
        mixing_seeds,
        decoy_seed,
        public_key,
        secret_key,
        &mut Work {
            bytes: &mut b.bytes[..],
            places: &mut e.places[..],
            positions: &mut p.positions[..],
        },
    )
}
