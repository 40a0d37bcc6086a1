// SHA3-512 of FIPS 202 as a hash: the first 32 of its bytes.
#![tactic(auto)]

mod keccak;
mod sponge;

use hashes::stream::Stream;
pub use sponge::Sponge;

pub type Sha3 = Stream<Sponge, 72>;
