// What a hash means, the labelled hash over every hash, and the streaming hash over every block function.
#![tactic(auto)]

ghost use Rattle.std.specs.Prelude.{◌≡◌, ℕ, ◌-◌, ◌<◌, ◌≤◌, List, [], ◌++◌, length, Ok, Err};
ghost use Rattle.hashes.specs.Restarted.{Restarted};
ghost use Rattle.levels.specs.declared.faults.Fault.TheVariants.{SmallCapacity};

pub mod labelled;
pub mod stream;

use levels::faults::Fault;

// A hash by its meaning, in four parts. The rule takes lists of bytes to 32 bytes, and neither it
// nor the capacity ever changes. Of a state, `left` is the number of bytes that it can still take,
// and the outcome says, for each further list of bytes, which 32 bytes finish would write after it.
pub trait Hash: Copy {
    ghost rule: { Self → List ℕ → List ℕ };

    ghost capacity: { Self → ℕ };

    ghost left: { Self → ℕ };

    ghost outcome: { Self → List ℕ → List ℕ };

    // Begins again: all of the capacity is left, and the outcome is the rule.
    fn start(&mut self)
        ensures { Restarted capacity left rule outcome self.old self.new };

    // Takes more bytes, unless they are more than are left: then nothing changes.
    fn take(&mut self, bytes: &[u8]) -> Result<(), Fault>
        ensures took { elim result [ Ok _ ↦ (length bytes.now ≤ left self.old) × (left self.new ≡ left self.old - length bytes.now) × (outcome self.new ≡ (λ xs. outcome self.old (bytes.now ++ xs))) | Err f ↦ (left self.old < length bytes.now) × (f ≡ SmallCapacity) × (self.new ≡ self.old) ] }
        ensures same { rule self.new ≡ rule self.old }
        ensures kept { capacity self.new ≡ capacity self.old };

    // Writes the outcome of no further bytes, and begins again.
    fn finish(&mut self, out: &mut [u8; 32])
        ensures wrote { out.new ≡ outcome self.old [] }
        ensures restarted { Restarted capacity left rule outcome self.old self.new };

    // The capacity.
    fn capacity(&self) -> usize
        ensures { result ≡ capacity self.now };

    ghost wide: { (s : Self) (xs : List ℕ) → length (rule s xs) ≡ 32 };
}

// Takes bytes that are known to be no more than are left.
pub fn take_all<H: Hash>(hash: &mut H, bytes: &[u8])
    requires { length bytes.now ≤ H.left hash.old }
    ensures spent { H.left hash.new ≡ H.left hash.old - length bytes.now }
    ensures joined { H.outcome hash.new ≡ (λ xs. H.outcome hash.old (bytes.now ++ xs)) }
    ensures same { H.rule hash.new ≡ H.rule hash.old }
    ensures kept { H.capacity hash.new ≡ H.capacity hash.old }
{
    hash.take(bytes).unwrap();
}
