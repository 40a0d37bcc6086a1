// The tests of a make that lengths decide.
ghost use Rattle.std.specs.Prelude.{◌≡◌};
ghost use Rattle.levels.specs.Names.{level_of};
ghost use Rattle.levels.specs.Rows.{answer};
ghost use Rattle.keys.specs.Calls.{size_rows, checked_at};

use levels::checks::{WorkLengths, check_work};
use levels::faults::Fault;
use levels::{Level, Sizes};

// The lengths of the buffers of a make, in their order.
#[derive(Clone, Copy)]
pub struct Lengths {
    pub code_seed: usize,
    pub mixing_seeds: usize,
    pub decoy_seed: usize,
    pub public_key: usize,
    pub secret_key: usize,
}

// The rows after the level's, in their order.
fn check_rows(sizes: &Sizes, buffers: Lengths, work: WorkLengths) -> Result<(), Fault>
    ensures { result ≡ answer (size_rows sizes.now buffers work) }
{
    if buffers.code_seed != 32 {
        return Err(Fault::WrongLength(0));
    }
    if buffers.mixing_seeds % 32 != 0 || buffers.mixing_seeds > 2048 {
        return Err(Fault::WrongLength(1));
    }
    if buffers.decoy_seed != 32 {
        return Err(Fault::WrongLength(2));
    }
    if buffers.public_key != sizes.public_key {
        return Err(Fault::WrongLength(3));
    }
    if buffers.secret_key != sizes.secret_key {
        return Err(Fault::WrongLength(4));
    }
    check_work(sizes.work(), work)
}

// The level, or the first refusal that applies.
pub fn check(level: &str, buffers: Lengths, work: WorkLengths) -> Result<Level, Fault>
    ensures { result ≡ checked_at (level_of level.now) buffers work }
{
    let level = level.parse::<Level>()?;
    check_rows(&level.sizes(), buffers, work)?;
    Ok(level)
}
