// Why a program has nothing to tell of a call.
ghost use Rattle.std.specs.Prelude.{◌≡◌};
ghost use Rattle.tasks.specs.declared.failures.Failure.TheVariants.{Refused, NoMemory};

use levels::faults::Fault;
use std::alloc::AllocError;

// The call refused, or there was no memory for what it writes.
#[derive(Drop)]
pub enum Failure {
    Refused(Fault),
    NoMemory(AllocError),
}

impl From<Fault> for Failure {
    ghost from_gives = { λ fault failure. failure ≡ Refused fault };

    fn from(fault: Fault) -> Failure {
        Failure::Refused(fault)
    }
}

impl From<AllocError> for Failure {
    ghost from_gives = { λ error failure. failure ≡ NoMemory error };

    fn from(error: AllocError) -> Failure {
        Failure::NoMemory(error)
    }
}
