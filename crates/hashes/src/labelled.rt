// The labelled hash: a hash over every hash.
ghost use Rattle.std.specs.Prelude.{◌≡◌, ◌+◌, ◌-◌, ◌≤◌, ◌++◌, length};
ghost use Rattle.hashes.specs.Labels.{labelled, labelled_length, left_under};
ghost use Rattle.hashes.specs.Restarted.{Restarted};

use crate::{Hash, take_all};
use levels::faults::Fault;

// The eight bytes that stand before what is taken.
#[derive(Clone, Copy, Debug, PartialEq, Eq)]
pub struct Label {
    pub bytes: [u8; 8],
}

// A hash over the one below, which it holds by value. Over a capacity under 8 the label is left
// out, and nothing can be taken.
#[derive(Clone, Copy)]
pub struct Labelled<H: Hash> {
    pub below: H,
    pub label: Label,
}

impl<H: Hash> Hash for Labelled<H> {
    ghost rule = { λ s. labelled (H.capacity s.below) s.label.bytes (H.rule s.below) };

    ghost capacity = { λ s. H.capacity s.below - 8 };

    ghost left = { λ s. left_under (H.capacity s.below) (H.left s.below) };

    ghost outcome = { λ s. H.outcome s.below };

    ghost wide = { λ s. labelled_length (H.capacity s.below) s.label.bytes (H.rule s.below) 32 (H.wide s.below) };

    fn start(&mut self) {
        self.below.start();
        if self.below.capacity() >= 8 {
            take_all(&mut self.below, &self.label.bytes);
        }
    }

    fn take(&mut self, bytes: &[u8]) -> Result<(), Fault> {
        if self.below.capacity() < 8 && bytes.len() > 0 {
            return Err(Fault::SmallCapacity);
        }
        self.below.take(bytes)
    }

    fn finish(&mut self, out: &mut [u8; 32]) {
        self.below.finish(out);
        if self.below.capacity() >= 8 {
            take_all(&mut self.below, &self.label.bytes);
        }
    }

    fn capacity(&self) -> usize {
        self.below.capacity().saturating_sub(8)
    }
}

// Writes the rule of a label and two lists of bytes, and leaves the hash as start does.
pub fn digest<H: Hash>(
    hash: &mut H,
    label: &[u8; 8],
    first: &[u8],
    second: &[u8],
    out: &mut [u8; 32],
)
    requires { 8 + (length first.now + length second.now) ≤ H.capacity hash.old }
    ensures wrote { out.new ≡ H.rule hash.old (label.now ++ (first.now ++ second.now)) }
    ensures restarted { Restarted H.capacity H.left H.rule H.outcome hash.old hash.new }
{
    let mut over = Labelled {
        below: *hash,
        label: Label { bytes: *label },
    };
    over.start();
    take_all(&mut over, first);
    take_all(&mut over, second);
    over.finish(out);
    hash.start();
}
