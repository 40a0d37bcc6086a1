// The sponge: the rate is 72 bytes, which are nine lanes.
ghost use Rattle.std.specs.Prelude.{◌≡◌, ◌<◌, length, take};
ghost use Rattle.sha3.specs.Keccak.{permuted};
ghost use Rattle.sha3.specs.Sponge.{sponge, sha3_rule, mixed, padded, byte_at, all_bytes};
ghost use Rattle.sha3.specs.Outcomes.{rule_length};
ghost use Rattle.std.proofs.Common.{lit<};

use crate::keccak::permute;
use hashes::stream::BlockFunction;

// The lanes of the state.
#[derive(Clone, Copy)]
pub struct Sponge {
    state: [u64; 25],
}

impl BlockFunction<72> for Sponge {
    ghost rule = { sha3_rule };

    ghost digest = { λ s _ xs. take 32 (sponge s.state xs) };

    ghost long = { lit< tt };

    ghost wide = { rule_length };

    fn begin() -> Self {
        Sponge { state: [0; 25] }
    }

    fn absorb(&mut self, block: &[u8; 72]) {
        absorb(&mut self.state, block);
    }

    fn close(&mut self, _: usize, rest: &[u8], out: &mut [u8; 32]) {
        absorb(&mut self.state, &pad(rest));
        squeeze(&self.state, out);
    }
}

// Adds a block to the first nine lanes, and permutes the state.
fn absorb(a: &mut [u64; 25], block: &[u8; 72])
    ensures { a.new ≡ permuted (mixed a.old block.now) }
{
    let (lanes, _) = block.as_chunks::<8>();
    for (i, lane) in lanes.iter().enumerate() {
        a[i] ^= u64::from_le_bytes(*lane);
    }
    permute(a);
}

// The last block: the rest of the message, the suffix 01 and pad10*1.
fn pad(rest: &[u8]) -> [u8; 72]
    requires { length rest.now < 72 }
    ensures { result ≡ padded rest.now }
{
    let mut last = [0; 72];
    last[..rest.len()].copy_from_slice(rest);
    last[rest.len()] = 0x06;
    last[71] |= 0x80;
    last
}

// The byte i of a state.
fn byte_of(a: &[u64; 25], i: usize) -> u8
    requires { i < 32 }
    ensures { result ≡ byte_at a.now i }
{
    a[i / 8].to_le_bytes()[i % 8]
}

// The first 32 of the 64 bytes that SHA3-512 squeezes.
fn squeeze(a: &[u64; 25], out: &mut [u8; 32])
    ensures { out.new ≡ take 32 (take 64 (all_bytes a.now)) }
{
    for (i, byte) in out.iter_mut().enumerate() {
        *byte = byte_of(a, i);
    }
}
