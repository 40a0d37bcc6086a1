// The hash that a kind's number names.
ghost use Rattle.std.specs.Prelude.{◌≡◌, ◌≢◌};
ghost use Rattle.capi.specs.declared.kinds.AnyHash.TheVariants.{Sha3, Sha2};
ghost use Rattle.capi.specs.Kinds.{rule_of_hash, hash_length};

use hashes::Hash;
use levels::faults::Fault;

// One of the two hashes.
#[derive(Clone, Copy)]
pub enum AnyHash {
    Sha3(sha3::Sha3),
    Sha2(sha512::Sha2),
}

// 0 for SHA3-512 and any other number for SHA-512.
impl From<u8> for AnyHash {
    ghost from_gives = { λ kind hash. elim hash [ Sha3 h ↦ kind ≡ 0 | Sha2 h ↦ kind ≢ 0 ] };

    fn from(kind: u8) -> AnyHash {
        match kind {
            0 => AnyHash::Sha3(sha3::Sha3::new()),
            _ => AnyHash::Sha2(sha512::Sha2::new()),
        }
    }
}

impl Hash for AnyHash {
    ghost rule = { rule_of_hash };

    ghost capacity = { λ s. elim s [ Sha3 h ↦ ⟦<sha3::Sha3 as Hash>⟧.capacity h | Sha2 h ↦ ⟦<sha512::Sha2 as Hash>⟧.capacity h ] };

    ghost left = { λ s. elim s [ Sha3 h ↦ ⟦<sha3::Sha3 as Hash>⟧.left h | Sha2 h ↦ ⟦<sha512::Sha2 as Hash>⟧.left h ] };

    ghost outcome = { λ s. elim s [ Sha3 h ↦ ⟦<sha3::Sha3 as Hash>⟧.outcome h | Sha2 h ↦ ⟦<sha512::Sha2 as Hash>⟧.outcome h ] };

    ghost wide = { hash_length };

    fn start(&mut self) {
        match self {
            AnyHash::Sha3(hash) => hash.start(),
            AnyHash::Sha2(hash) => hash.start(),
        }
    }

    fn take(&mut self, bytes: &[u8]) -> Result<(), Fault> {
        match self {
            AnyHash::Sha3(hash) => hash.take(bytes)?,
            AnyHash::Sha2(hash) => hash.take(bytes)?,
        }
        Ok(())
    }

    fn finish(&mut self, out: &mut [u8; 32]) {
        match self {
            AnyHash::Sha3(hash) => hash.finish(out),
            AnyHash::Sha2(hash) => hash.finish(out),
        }
    }

    fn capacity(&self) -> usize {
        match self {
            AnyHash::Sha3(hash) => hash.capacity(),
            AnyHash::Sha2(hash) => hash.capacity(),
        }
    }
}
