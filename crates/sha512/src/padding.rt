// The end of a message: the padding, and the bytes of the last chaining value.
ghost use Rattle.std.specs.Prelude.{◌≡◌, ◌-◌, ◌*◌, ◌%◌, ◌<◌, ◌∷◌, ◌++◌, length, take, replicate};
ghost use Rattle.sha512.specs.Sha512.{bytes_of, padding, absorb, digest, byte_at};

use crate::compression::compress_block;

// The rest of a message, a bit 1, and bits 0 to the end of the block.
fn closed(rest: &[u8]) -> [u8; 128]
    requires { length rest.now < 128 }
    ensures { result ≡ rest.now ++ 128 ∷ replicate (127 - length rest.now) 0 }
{
    let mut last = [0; 128];
    last[..rest.len()].copy_from_slice(rest);
    last[rest.len()] = 128;
    last
}

// Writes the length in bits of a message of n bytes into the last 16 bytes of a block.
fn put_length(block: &mut [u8; 128], n: usize)
    ensures { block.new ≡ take 112 block.old ++ bytes_of 16 (8 * n) }
{
    let bits = (8 * n as u128).to_be_bytes();
    block[112..].copy_from_slice(&bits);
}

// The last chaining value of a message of so many bytes, of which these are past the last whole
// block: the padding ends that block, or the one after it.
pub(crate) fn absorb_last(h: &mut [u64; 8], rest: &[u8], taken: usize)
    requires { length rest.now ≡ taken % 128 }
    ensures { h.new ≡ absorb h.old (rest.now ++ padding taken) }
{
    let mut last = closed(rest);
    if rest.len() < 112 {
        put_length(&mut last, taken);
        compress_block(h, &last);
    } else {
        compress_block(h, &last);
        let mut length = [0; 128];
        put_length(&mut length, taken);
        compress_block(h, &length);
    }
}

// Byte i of the words of a chaining value.
#[tactic(auto, using(crate::specs::Blocks::bytes_8))]
fn byte_of(h: &[u64; 8], i: usize) -> u8
    requires { i < 64 }
    ensures { result ≡ byte_at h.now i }
{
    h[i / 8].to_be_bytes()[i % 8]
}

// The bytes of the first four words.
pub(crate) fn write_digest(h: &[u64; 8], out: &mut [u8; 32])
    ensures { out.new ≡ take 32 (digest h.now) }
{
    for (i, byte) in out.iter_mut().enumerate() {
        *byte = byte_of(h, i);
    }
}
