// The columns of the check matrix: the inverses of X - a modulo g.
ghost use Rattle.std.specs.Prelude.{◌≡◌, ℕ, ◌+◌, ◌-◌, ◌<◌, ◌≤◌, length, MatchOption, drop, slice_index};
ghost use Rattle.polys.specs.Values.{value};
ghost use Rattle.goppa.specs.Columns.{Column};

use fields::field::{BinaryField, Field};
use fields::{add_product, read};
use polys::values::value_at;

// Writes e times the quotient of g by X - a. The quotient's coefficient of X^r is the value at a of what stands in g after place r.
#[tactic(auto, using(crate::proofs::Quotients::quotient_steps))]
fn scaled_quotient<F: BinaryField>(g: &[u16], a: F, e: F, out: &mut [u16])
    requires { length g.now ≡ length out.old + 1 }
    ensures { (r : ℕ) → r < length out.old → slice_index out.new r ≡ F.Field.places.num (F.Field.ops.mul e (value F.Field.ops F.Field.places (drop (r + 1) g.now) a)) }
{
    let mut q = F::zero();
    // By places: a `zip` with `iter_mut` would say nothing of what was written.
    for r in (0..out.len()).rev() {
        q = add_product(read::<F>(g[r + 1]), a, q);
        out[r] = e.product(q).place();
    }
}

// Writes the inverse of X - a modulo g. It has none where g is zero at a, and only there: `out` then stays.
pub fn column<F: BinaryField>(g: &[u16], a: F, out: &mut [u16]) -> Option<()>
    requires { (length g.now ≡ length out.old + 1) × (1 ≤ length out.old) }
    ensures { MatchOption result ((value F.Field.ops F.Field.places g.now a ≡ F.Field.ops.zero) × (out.new ≡ out.old)) (λ _. Column F.Field.ops F.Field.places (length out.old) g.now a out.new) }
{
    let e = value_at(g, a).inverse()?;
    scaled_quotient(g, a, e, out);
    Some(())
}
