// The chaining value as a block function.
ghost use Rattle.std.specs.Prelude.{◌*◌, take};
ghost use Rattle.std.proofs.Common.{lit<};
ghost use Rattle.sha512.specs.Sha512.{sha2_rule, digest_from};
ghost use Rattle.sha512.specs.Takes.{rule_length};

use crate::compression::compress_block;
use crate::padding::{absorb_last, write_digest};
use hashes::stream::BlockFunction;

// The initial chaining value of FIPS 180-4.
const INITIAL: [u64; 8] = [
    0x6a09e667f3bcc908,
    0xbb67ae8584caa73b,
    0x3c6ef372fe94f82b,
    0xa54ff53a5f1d36f1,
    0x510e527fade682d1,
    0x9b05688c2b3e6c1f,
    0x1f83d9abfb41bd6b,
    0x5be0cd19137e2179,
];

// The chaining value.
#[derive(Clone, Copy)]
pub struct Chaining {
    value: [u64; 8],
}

impl BlockFunction<128> for Chaining {
    ghost rule = { sha2_rule };

    ghost digest = { λ s k xs. take 32 (digest_from s.value (128 * k) xs) };

    ghost long = { lit< tt };

    ghost wide = { rule_length };

    fn begin() -> Self {
        Chaining { value: INITIAL }
    }

    fn absorb(&mut self, block: &[u8; 128]) {
        compress_block(&mut self.value, block);
    }

    #[tactic(auto, using(crate::specs::Takes::goes_end))]
    fn close(&mut self, absorbed: usize, rest: &[u8], out: &mut [u8; 32]) {
        absorb_last(&mut self.value, rest, 128 * absorbed + rest.len());
        write_digest(&self.value, out);
    }
}
