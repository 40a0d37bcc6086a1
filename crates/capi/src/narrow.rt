// The hash that a kind's number names, and a hash that takes less than the one below, so that refusals
// for want of capacity can be met.
ghost use Rattle.std.specs.Prelude.{◌≡◌, min};
ghost use Rattle.std.proofs.Common.{rules};

use hashes::Hash;
use levels::faults::Fault;

// The hash below, with a capacity that is no larger than its own and than `most`.
#[derive(Clone, Copy)]
pub struct Narrow<H: Hash> {
    pub below: H,
    pub most: usize,
    pub left: usize,
}

impl<H: Hash> Narrow<H> {
    // The hash below, with a capacity of no more than `most`.
    pub fn over(below: H, most: usize) -> Self
        ensures below { result.below ≡ below }
        ensures most { result.most ≡ most }
    {
        Narrow {
            below,
            most,
            left: most,
        }
    }
}

impl<H: Hash> Hash for Narrow<H> {
    ghost rule = { λ s. H.Hash.rule s.below };

    ghost capacity = { λ s. min s.most (H.Hash.capacity s.below) };

    ghost left = { λ s. min s.left (H.Hash.left s.below) };

    ghost outcome = { λ s. H.Hash.outcome s.below };

    ghost wide = { Prim.search rules };

    fn start(&mut self) {
        self.below.start();
        self.left = self.most;
    }

    fn take(&mut self, bytes: &[u8]) -> Result<(), Fault> {
        if bytes.len() > self.left {
            return Err(Fault::SmallCapacity);
        }
        self.below.take(bytes)?;
        self.left -= bytes.len();
        Ok(())
    }

    fn finish(&mut self, out: &mut [u8; 32]) {
        self.below.finish(out);
        self.left = self.most;
    }

    fn capacity(&self) -> usize {
        self.most.min(self.below.capacity())
    }
}
