// The tests that several calls share.
ghost use Rattle.std.specs.Prelude.{◌≡◌, [], ◌∷◌};
ghost use Rattle.levels.specs.Rows.{answer, short_rows, small_row};

use crate::faults::Fault;

// The lengths of the three lent work slices.
#[derive(Clone, Copy, Debug, PartialEq, Eq)]
pub struct WorkLengths {
    pub bytes: usize,
    pub places: usize,
    pub positions: usize,
}

// Each work slice has at least the length that it should have.
pub fn check_work(least: WorkLengths, work: WorkLengths) -> Result<(), Fault>
    ensures { result ≡ answer (short_rows least work) }
{
    if work.bytes < least.bytes {
        return Err(Fault::ShortWork(0));
    }
    if work.places < least.places {
        return Err(Fault::ShortWork(1));
    }
    if work.positions < least.positions {
        return Err(Fault::ShortWork(2));
    }
    Ok(())
}

// The hash takes at least as much as it should.
pub fn check_capacity(least: usize, capacity: usize) -> Result<(), Fault>
    ensures { result ≡ answer (small_row least capacity ∷ []) }
{
    if capacity < least {
        return Err(Fault::SmallCapacity);
    }
    Ok(())
}
