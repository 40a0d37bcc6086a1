// The tests of a written secret key. They answer what the definition of a sound key says: the first
// test that fails, and its place.
#![tactic(auto)]

ghost use Rattle.std.specs.Prelude.{◌≡◌, ◌+◌, ◌*◌, ◌≤◌, length, Ok, Err};
ghost use Rattle.levels.specs.Rows.{answer, work_of};
ghost use Rattle.keys.specs.Secret.{support_in, goppa_in};
ghost use Rattle.keys.specs.Sound.{sound_rows};
ghost use Rattle.soundness.specs.Parts.{code_rows, matrix_rows};

pub mod comparing;
pub mod reading;
pub mod values;

use comparing::first_difference;
use fields::field::{BinaryField, Field};
use goppa::code::{Code, size};
use goppa::mixed::write_mixed;
use levels::Sizes;
use levels::faults::{Defect, Fault};
use levels::guards::{Place, Position, Work};
use matrices::rank;
use reading::{first_outside, first_unfit, read_words};
use shuffles::order_by;
use std::marker::PhantomData;
use values::{first_clash, zeros_in_field};

// Reads the support and the coefficients of g, which is monic.
pub fn read_code<F: BinaryField>(sizes: &Sizes, key: &[u8], g: &mut [Place], support: &mut [Place])
    requires key { length key.now ≡ sizes.now.secret_key }
    requires long { (length g.old ≡ sizes.now.t + 1) × (length support.old ≡ sizes.now.n) }
    ensures support { support.new ≡ support_in sizes.now key.now }
    ensures g { g.new ≡ goppa_in F.Field.ops F.Field.places sizes.now key.now }
{
    read_words(key, 0, support);
    read_words(key, sizes.n, &mut g[0..sizes.t]);
    g[sizes.t] = F::one().place();
}

// Reads the support and g into `lists`, and tests them. They are the code that this gives.
fn check_code<'a, F: BinaryField>(
    sizes: &Sizes,
    key: &[u8],
    lists: &'a mut [Place],
    values: &mut [Place],
) -> Result<Code<'a, F>, Fault>
    requires key { (F.Field.BITS ≡ sizes.now.m) × (length key.now ≡ sizes.now.secret_key) }
    requires long { (length lists.old ≡ sizes.now.t + 1 + sizes.now.n) × (sizes.now.n ≤ length values.old) }
    ensures { elim result [ Ok code ↦ (Ok tt ≡ answer (code_rows F.Field.ops F.Field.places sizes.now key.now)) × ((code.support.now ≡ support_in sizes.now key.now) × (code.g.now ≡ goppa_in F.Field.ops F.Field.places sizes.now key.now)) | Err fault ↦ Err fault ≡ answer (code_rows F.Field.ops F.Field.places sizes.now key.now) ] }
{
    let (g, support) = lists.split_at_mut(sizes.t + 1);
    read_code::<F>(sizes, key, g, support);
    let size = size::<F>();
    if let Some(at) = first_unfit(support, size) {
        return Err(Fault::Unsound(Defect::Support(at)));
    }
    if let Some(at) = first_outside(&g[0..sizes.t], size) {
        return Err(Fault::Unsound(Defect::Coefficient(at)));
    }
    if let Some(at) = first_clash::<F>(g, support, &mut values[..sizes.n]) {
        return Err(Fault::Unsound(Defect::Clash(at)));
    }
    let found = zeros_in_field::<F>(g, values);
    if found != sizes.t {
        return Err(Fault::Unsound(Defect::Zeros(found)));
    }
    Ok(Code {
        g,
        support,
        field: PhantomData,
    })
}

// What the tests of the matrix write in the work memory, over any content: the front of HP, a column,
// and an order. They are lent from different slices, so each has its own lifetime.
#[derive(Drop)]
struct Parts<'b, 'e, 'p> {
    sizes: Sizes,
    square: &'b mut [u8],
    column: &'e mut [Place],
    order: &'p mut [Position],
    ghost matrix: { length square.now ≡ sizes.rows * sizes.body },
    ghost elements: { length column.now ≡ sizes.t },
    ghost positions: { length order.now ≡ sizes.n },
}

impl Parts<'_, '_, '_> {
    // The tests of the matrix, which is to be the front of HP.
    fn check_matrix<F: BinaryField>(&mut self, key: &[u8], code: &Code<'_, F>) -> Result<(), Fault>
        requires key { (F.Field.BITS ≡ self.old.sizes.m) × (length key.now ≡ self.old.sizes.secret_key) }
        requires code { (code.now.g.now ≡ goppa_in F.Field.ops F.Field.places self.old.sizes key.now) × (code.now.support.now ≡ support_in self.old.sizes key.now) }
        requires long { (length code.now.g.now ≡ self.old.sizes.t + 1) × (length code.now.support.now ≡ self.old.sizes.n) }
        ensures { result ≡ answer (matrix_rows F.Field.ops F.Field.places self.old.sizes key.now) }
    {
        let sizes = self.sizes;
        let from = 2 * sizes.n + 2 * sizes.t;
        let mixing = from + sizes.rows * sizes.body;
        let Some(seed) = key[mixing..].first_chunk() else {
            unreachable!()
        };
        order_by(self.order, seed);
        write_mixed(code, self.order, self.column, self.square, sizes.body);
        let square = &mut *self.square;
        if let Some(at) = first_difference(&key[from..], square, sizes.body, sizes.rows) {
            return Err(Fault::Unsound(Defect::Matrix(at)));
        }
        let found = rank(square, sizes.body, sizes.rows);
        if found != sizes.rows {
            return Err(Fault::Unsound(Defect::Rank(found)));
        }
        Ok(())
    }

    // The tests; the code is read into `lists`.
    fn check<F: BinaryField>(
        &mut self,
        key: &[u8],
        lists: &mut [Place],
        values: &mut [Place],
    ) -> Result<(), Fault>
        requires key { (F.Field.BITS ≡ self.old.sizes.m) × (length key.now ≡ self.old.sizes.secret_key) }
        requires long { (length lists.old ≡ self.old.sizes.t + 1 + self.old.sizes.n) × (self.old.sizes.n ≤ length values.old) }
        ensures { result ≡ answer (sound_rows F.Field.ops F.Field.places self.old.sizes key.now) }
    {
        let code = check_code::<F>(&self.sizes, key, lists, values)?;
        self.check_matrix(key, &code)
    }
}

// Whether a written secret key is sound: the first test that fails is named, with its place. What
// the work memory holds then is of no use.
pub fn check_key<F: BinaryField>(
    sizes: &Sizes,
    key: &[u8],
    work: &mut Work<'_>,
) -> Result<(), Fault>
    requires key { (F.Field.BITS ≡ sizes.now.m) × (length key.now ≡ sizes.now.secret_key) }
    requires work { (sizes.now.work_bytes ≤ length work.old.bytes.now) × ((sizes.now.work_places ≤ length work.old.places.now) × (sizes.now.work_places ≤ length work.old.positions.now)) }
    ensures answer { result ≡ answer (sound_rows F.Field.ops F.Field.places sizes.now key.now) }
    ensures kept { work_of work.new.bytes.now work.new.places.now work.new.positions.now ≡ work_of work.old.bytes.now work.old.places.now work.old.positions.now }
{
    let bytes = &mut *work.bytes;
    let places = &mut *work.places;
    let positions = &mut *work.positions;
    let (column, rest) = places.split_at_mut(sizes.t);
    let (lists, values) = rest.split_at_mut(sizes.t + 1 + sizes.n);
    let mut parts = Parts {
        sizes: *sizes,
        square: &mut bytes[0..sizes.rows * sizes.body],
        column,
        order: &mut positions[0..sizes.n],
    };
    parts.check::<F>(key, lists, values)
}
