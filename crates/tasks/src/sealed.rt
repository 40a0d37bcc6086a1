// The customer's seal.
ghost use Rattle.std.specs.Prelude.{◌≡◌, IfOk, IfErr, length};
ghost use Rattle.levels.specs.Rows.{work_of};
ghost use Rattle.levels.specs.Names.{level_of};
ghost use Rattle.sealing.specs.Calls.{SealedAt};
ghost use Rattle.sha3.specs.Sponge.{sha3_rule};
ghost use Rattle.tasks.specs.Answers.{seal_answer, RefusedBy};

use crate::failures::Failure;
use crate::memory::Memory;
use crate::shown::Hex;
use levels::Sizes;
use levels::guards::Work;
use sha3::Sha3;
use std::alloc::Global;
use std::fmt;

// What a seal makes.
#[derive(Drop)]
pub struct Sealed {
    pub ticket: Vec<u8>,
    pub key: Vec<u8>,
}

// Seals to a public key with SHA3-512.
pub fn seal(
    heap: Global,
    level: &str,
    sizes: &Sizes,
    public_key: &[u8],
    seed: &[u8],
    memory: &mut Memory,
) -> Result<Sealed, Failure>
    ensures made { IfOk result (λ made. SealedAt (level_of level.now) sha3_rule public_key.now seed.now made.ticket.items made.key.items) }
    ensures refused { IfErr result (λ failure. RefusedBy (seal_answer (level_of level.now) (length public_key.now) (length seed.now) sizes.now.ticket (work_of memory.old.bytes.items memory.old.places.items memory.old.positions.items)) failure) }
{
    let mut ticket = vec![in heap; 0u8; sizes.ticket]?;
    let mut key = vec![in heap; 0u8; 32]?;
    let mut hash = Sha3::new();
    sealing::seal(
        level,
        public_key,
        seed,
        &mut ticket,
        &mut key,
        &mut hash,
        Work {
            bytes: &mut memory.bytes,
            places: &mut memory.places,
            positions: &mut memory.positions,
        },
    )?;
    Ok(Sealed { ticket, key })
}

// The ticket, part by part and whole, and its key.
impl fmt::Display for Sealed {
    fn fmt<W: fmt::Write>(&self, f: &mut fmt::Formatter<W>) -> fmt::Result {
        let ticket = self.ticket.as_slice();
        writeln!(f, "head={}", Hex(ticket.get(..32).unwrap_or(&[])))?;
        writeln!(f, "body={}", Hex(ticket.get(32..).unwrap_or(&[])))?;
        writeln!(
            f,
            "The ticket, which goes to the shop, and the key of the job file, which stays here:"
        )?;
        writeln!(f, "ticket={}", Hex(ticket))?;
        write!(f, "key={}", Hex(self.key.as_slice()))
    }
}
