// The streaming hash over every block function: bytes are taken as they come, and each block is
// absorbed once it is full.
ghost use Rattle.std.specs.Prelude.{◌≡◌, ⊤, ℕ, ◌+◌, ◌-◌, ◌*◌, ◌<◌, ◌≤◌, List, ◌++◌, length, take};

use crate::Hash;
use levels::faults::Fault;
use std::alloc::AllocError;

// How many bytes a hash can take.
const CAPACITY: usize = 65536;

// A function that absorbs a message block by block, each of N bytes. The rule says which 32 bytes
// come of a message, and the digest of a state that has absorbed so many blocks, which come of it
// all for each list of bytes that follow.
pub trait BlockFunction<const N: usize>: Copy {
    ghost rule: { List ℕ → List ℕ };

    ghost digest: { Self → ℕ → List ℕ → List ℕ };

    // The state that has absorbed nothing.
    fn begin() -> Self
        ensures { digest result 0 ≡ rule };

    // Absorbs one more block.
    fn absorb(&mut self, block: &[u8; N])
        ensures { (k : ℕ) → digest self.new (k + 1) ≡ (λ xs. digest self.old k (block.now ++ xs)) };

    // Writes the digest of the rest of a message, which fills no block. What it leaves is of no use.
    fn close(&mut self, absorbed: usize, rest: &[u8], out: &mut [u8; 32])
        requires few { N * absorbed + length rest.now ≤ 65536 }
        requires short { length rest.now < N }
        ensures { out.new ≡ digest self.old absorbed rest.now };

    ghost long: { 0 < N };

    ghost wide: { (xs : List ℕ) → length (rule xs) ≡ 32 };
}

// The state after so many blocks, and the bytes past them, which stand at the front of the block. The block
// is an array with its fill beside: a hash is copied by value, and a growing buffer is not `Copy`.
pub struct Stream<B: BlockFunction<N>, const N: usize> {
    state: B,
    absorbed: usize,
    block: [u8; N],
    used: usize,
    ghost short: { used < N },
    ghost few: { N * absorbed + used ≤ 65536 },
}

// By hand, since a derive is refused on a struct whose ghost fields name a bound's constant.
impl<B: BlockFunction<N>, const N: usize> Clone for Stream<B, N> {
    ghost is_clone = { λ s t. t ≡ s };

    ghost is_infallible = { λ _. ⊤ };

    fn clone(&self) -> Result<Self, AllocError> {
        Ok(*self)
    }
}

impl<B: BlockFunction<N>, const N: usize> Copy for Stream<B, N> {}

impl<B: BlockFunction<N>, const N: usize> Stream<B, N> {
    // A hash that has taken nothing.
    pub fn new() -> Self
        ensures fresh { ⟦<Self as Hash>⟧.left result ≡ 65536 }
        ensures ruled { ⟦<Self as Hash>⟧.outcome result ≡ B.rule }
    {
        Stream {
            state: B::begin(),
            absorbed: 0,
            block: [0; N],
            used: 0,
        }
    }

    // Takes all of the bytes, and absorbs each block that they fill.
    fn push_all(&mut self, bytes: &[u8])
        requires { length bytes.now ≤ ⟦<Self as Hash>⟧.left self.old }
        ensures more { ⟦<Self as Hash>⟧.outcome self.new ≡ (λ xs. ⟦<Self as Hash>⟧.outcome self.old (bytes.now ++ xs)) }
        ensures spent { ⟦<Self as Hash>⟧.left self.new ≡ ⟦<Self as Hash>⟧.left self.old - length bytes.now }
    {
        let mut rest = bytes;
        while rest.len() >= N - self.used {
            let (front, back) = rest.split_at(N - self.used);
            let room = &mut self.block[..];
            room[self.used..].copy_from_slice(front);
            self.state.absorb(&self.block);
            self.absorbed += 1;
            self.used = 0;
            rest = back;
        }
        let end = self.used + rest.len();
        let room = &mut self.block[..];
        room[self.used..end].copy_from_slice(rest);
        self.used = end;
    }
}

impl<B: BlockFunction<N>, const N: usize> Hash for Stream<B, N> {
    ghost rule = { λ _. B.rule };

    ghost capacity = { λ _. 65536 };

    ghost left = { λ s. 65536 - (N * s.absorbed + s.used) };

    ghost outcome = { λ s xs. B.digest s.state s.absorbed (take s.used s.block ++ xs) };

    ghost wide = { λ s xs. B.wide xs };

    fn start(&mut self) {
        *self = Stream::new();
    }

    fn take(&mut self, bytes: &[u8]) -> Result<(), Fault> {
        if bytes.len() > CAPACITY - (N * self.absorbed + self.used) {
            return Err(Fault::SmallCapacity);
        }
        self.push_all(bytes);
        Ok(())
    }

    fn finish(&mut self, out: &mut [u8; 32]) {
        let rest = &self.block[..self.used];
        self.state.close(self.absorbed, rest, out);
        self.start();
    }

    fn capacity(&self) -> usize {
        CAPACITY
    }
}
