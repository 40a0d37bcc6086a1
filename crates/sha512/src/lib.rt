// The first 32 bytes of SHA-512 as a hash.
#![tactic(auto)]

mod chaining;
mod compression;
mod functions;
mod padding;

pub use chaining::Chaining;
use hashes::stream::Stream;

pub type Sha2 = Stream<Chaining, 128>;
