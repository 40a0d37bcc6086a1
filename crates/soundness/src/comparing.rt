// The first row in which two packed matrices differ.
ghost use Rattle.std.specs.Prelude.{◌≡◌, ◌*◌, ◌≤◌, not, length, ◌==◌};
ghost use Rattle.bits.specs.Vectors.{◌⊕◌, weight};
ghost use Rattle.bits.specs.Packed.{vector, matrix};
ghost use Rattle.bits.specs.Search.{Found};

// Whether two rows differ. All bytes are compared, and no branch hangs on one.
pub fn differ(a: &[u8], b: &[u8]) -> bool
    requires { length a.now ≡ length b.now }
    ensures { result ≡ not (weight (8 * length a.now) (λ j. vector a.now j ⊕ vector b.now j) == 0) }
{
    let mut hit = false;
    for (x, y) in a.iter().zip(b) {
        hit |= x != y;
    }
    hit
}

// The first row in which they differ. A row may have no bytes, which `chunks_exact` would not take.
pub fn first_difference(a: &[u8], b: &[u8], width: usize, rows: usize) -> Option<usize>
    requires { (rows * width ≤ length a.now) × (rows * width ≤ length b.now) }
    ensures { Found result rows (λ i. not (weight (8 * width) (λ j. matrix width a.now i j ⊕ matrix width b.now i j) == 0)) }
{
    for i in 0..rows {
        let at = i * width;
        if differ(&a[at..at + width], &b[at..at + width]) {
            return Some(i);
        }
    }
    None
}
