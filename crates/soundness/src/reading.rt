// The places that a key holds, and the tests of them.
ghost use Rattle.std.specs.Prelude.{◌≡◌, ◌+◌, ◌*◌, ◌≤◌, not, ◌||◌, length, take, nat_lt, slice_index};
ghost use Rattle.bits.specs.Search.{Found};
ghost use Rattle.shuffles.specs.Orders.{among};
ghost use Rattle.soundness.specs.Parts.{words_from};

use levels::guards::Place;

// Reads 16-bit numbers, from one on.
pub fn read_words(key: &[u8], from: usize, out: &mut [Place])
    requires { 2 * from + 2 * length out.old ≤ length key.now }
    ensures { out.new ≡ words_from key.now from (length out.old) }
{
    for (i, x) in out.iter_mut().enumerate() {
        *x = bits::word_at(key, from + i);
    }
}

// Whether x is among the numbers. All are compared, and no branch hangs on one.
pub fn seen(numbers: &[Place], x: Place) -> bool
    ensures { result ≡ among numbers.now x }
{
    let mut hit = false;
    for &y in numbers {
        hit |= y == x;
    }
    hit
}

// The first entry of a support that is no place or equals an earlier one.
pub fn first_unfit(support: &[Place], size: usize) -> Option<usize>
    ensures { Found result (length support.now) (λ j. not (nat_lt (slice_index support.now j) size) || among (take j support.now) (slice_index support.now j)) }
{
    for (j, &x) in support.iter().enumerate() {
        if usize::from(x) >= size || seen(&support[..j], x) {
            return Some(j);
        }
    }
    None
}

// The first number that is no place.
pub fn first_outside(numbers: &[Place], size: usize) -> Option<usize>
    ensures { Found result (length numbers.now) (λ i. not (nat_lt (slice_index numbers.now i) size)) }
{
    numbers.iter().position(
        |&x|
            ensures { result ≡ not (nat_lt x size) }
        { usize::from(x) >= size },
    )
}
