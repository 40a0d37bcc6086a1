// Bits in packed vectors, and the linear algebra over the field of two elements. The functions `bit`
// and `add_bit` and what they cite are all that knows where in its byte a bit lies.
#![tactic(auto)]

ghost use Rattle.std.specs.Prelude.{◌≡◌, ℕ, ◌+◌, ◌*◌, ◌/◌, ◌%◌, ◌<◌, ◌++◌, length, slice_index};
ghost use Rattle.bits.specs.Packed.{power_of, vector, BitAdded};
ghost use Rattle.bits.specs.Words.{word, word_bytes};
ghost use Rattle.bits.specs.Kernels.{ProductBack, ColumnBack, Injective, OnlyOne, OnlyBody, NoPivot, NotBoth, Decides, FrontDecides, RankOnce, FullRank, SmallRank};
ghost use Rattle.bits.specs.Rank.{RankIs};
ghost use Rattle.bits.specs.Reduced.{ReducedIs, ReducedExists};

// The power of two that is the weight of bit j in its byte.
fn power(j: usize) -> u32
    ensures value { result ≡ power_of (j % 8) }
    ensures bound { result < 8 }
{
    7 - (j % 8) as u32
}

// Bit j of a vector.
pub fn bit(v: &[u8], j: usize) -> bool
    requires { j / 8 < length v.now }
    ensures { result ≡ vector v.now j }
{
    (v[j / 8] >> power(j)) & 1 == 1
}

// Adds a bit at place j of a vector.
pub fn add_bit(v: &mut [u8], j: usize, b: bool)
    requires { j / 8 < length v.old }
    ensures { BitAdded j b v.old v.new }
{
    v[j / 8] ^= (b as u8) << power(j);
}

// Number i of the 16-bit numbers that bytes hold.
pub fn word_at(bytes: &[u8], i: usize) -> u16
    requires { 2 * i + 1 < length bytes.now }
    ensures { result ≡ word bytes.now i }
{
    u16::from_be_bytes([bytes[2 * i], bytes[2 * i + 1]])
}

// Writes 16-bit numbers.
pub fn write_words(words: &[u16], out: &mut [u8])
    requires { length out.old ≡ 2 * length words.now }
    ensures bytes { out.new ≡ word_bytes words.now }
    ensures back { (i : ℕ) → word out.new i ≡ slice_index words.now i }
{
    for (i, word) in words.iter().enumerate() {
        let [high, low] = word.to_be_bytes();
        out[2 * i] = high;
        out[2 * i + 1] = low;
    }
}

// Writes one list of bytes after the other.
pub fn join(first: &[u8], second: &[u8], out: &mut [u8])
    requires { length out.old ≡ length first.now + length second.now }
    ensures { out.new ≡ first.now ++ second.now }
{
    let at = first.len();
    out[..at].copy_from_slice(first);
    out[at..].copy_from_slice(second);
}

// What a matrix that begins with the unit matrix says of another with the same kernel.
pub fn reduction_stands() -> u8
    ensures product { ProductBack }
    ensures column { ColumnBack }
    ensures injective { Injective }
    ensures only { OnlyOne }
    ensures body { OnlyBody }
    ensures dependent { NoPivot }
    ensures once { ReducedIs }
    ensures exists { ReducedExists }
{
    0
}

// The columns of a square matrix are dependent or independent and not both, and its rank says which.
pub fn rank_stands() -> u8
    ensures differ { NotBoth }
    ensures decided { Decides }
    ensures front { FrontDecides }
    ensures once { RankOnce }
    ensures number { RankIs }
    ensures full { FullRank }
    ensures small { SmallRank }
{
    0
}
