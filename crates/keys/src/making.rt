// A pair of keys from seeds, over the field of a level.
ghost use Rattle.std.specs.Prelude.{◌≡◌, ℕ, ◌+◌, ◌*◌, ◌^◌, ◌<◌, ◌≤◌, true, [], ◌∷◌, length, Ok, Err};
ghost use Rattle.levels.specs.Rows.{answer, work_of};
ghost use Rattle.bits.specs.Packed.{matrix};
ghost use Rattle.bits.specs.Kernels.{independent};
ghost use Rattle.bits.specs.Reduced.{reduced_of};
ghost use Rattle.keys.specs.Secret.{written, mixed_by, public_key_of};
ghost use Rattle.keys.specs.Seeds.{support_of_seed, goppa_of, seed_of, count_of};
ghost use Rattle.keys.specs.Calls.{seed_row, Made};

use crate::candidates::{first_usable, seed_at};
use crate::writing::{write_public, write_secret};
use fields::field::{BinaryField, Field};
use goppa::code::{Code, code_of, size, support_of, zeros_of};
use goppa::mixed::write_mixed;
use goppa::zeros::goppa_polynomial;
use levels::Sizes;
use levels::faults::Fault;
use levels::guards::{Place, Position, Work};
use shuffles::{Seed, order_by};
use std::marker::PhantomData;

// The seeds of a make; the mixing seeds are a list. The length of an array behind a reference in a
// struct is not known by its type, so a ghost field has it.
#[derive(Drop)]
pub struct Seeds<'a> {
    pub code: &'a Seed,
    pub mixing: &'a [u8],
    pub decoy: &'a Seed,
    // Said once more, since a proof does not see the length of an array behind a reference in a struct.
    pub ghost whole: { length decoy.now ≡ 32 },
}

// Writes all elements in the order of a code seed, and the polynomial g, and gives their code.
fn write_code<'a, F: BinaryField>(
    sizes: &Sizes,
    seed: &Seed,
    all: &'a mut [Place],
    g: &'a mut [Place],
) -> Code<'a, F>
    requires field { F.Field.BITS ≡ sizes.now.m }
    requires long { (length all.old ≡ 2 ^ F.Field.BITS) × (length g.old ≡ sizes.now.t + 1) }
    ensures support { result.support.now ≡ support_of_seed F.Field.BITS sizes.now seed.now }
    ensures g { result.g.now ≡ goppa_of F.Field.ops F.Field.places sizes.now seed.now }
    ensures long { (length result.support.now ≡ sizes.now.n) × (length result.g.now ≡ sizes.now.t + 1) }
{
    code_of::<F>(all, seed);
    goppa_polynomial::<F>(zeros_of(all, sizes.n, sizes.t), g);
    Code {
        g,
        support: support_of(all, sizes.n),
        field: PhantomData,
    }
}

// What a make writes in the work memory from a code, over any content: HP, a column, and the order of
// a mixing seed. They are lent from different slices, so each has its own lifetime.
#[derive(Drop)]
struct Parts<'b, 'e, 'p> {
    sizes: Sizes,
    hp: &'b mut [u8],
    column: &'e mut [Place],
    order: &'p mut [Position],
    ghost matrix: { length hp.now ≡ sizes.rows * sizes.vector },
    ghost elements: { length column.now ≡ sizes.t },
    ghost positions: { length order.now ≡ sizes.n },
}

impl Parts<'_, '_, '_> {
    // Writes HP of a code and a mixing seed.
    fn write_hp<F: BinaryField>(&mut self, code: &Code<'_, F>, mixing: &Seed)
        requires field { F.Field.BITS ≡ self.old.sizes.m }
        requires code { (length code.now.g.now ≡ self.old.sizes.t + 1) × (length code.now.support.now ≡ self.old.sizes.n) }
        ensures hp { (i j : ℕ) → i < self.old.sizes.rows → j < self.old.sizes.n → matrix self.old.sizes.vector self.new.hp.now i j ≡ mixed_by F.Field.ops F.Field.places self.old.sizes code.now.support.now code.now.g.now mixing.now i j }
        ensures same { self.new.sizes ≡ self.old.sizes }
    {
        order_by(self.order, mixing);
        write_mixed(code, self.order, self.column, self.hp, self.sizes.vector);
    }

    // Writes both keys from HP, whose first columns are independent. S⁻¹ is taken before HP is reduced.
    fn write_keys<F: BinaryField>(
        &mut self,
        code: &Code<'_, F>,
        mixing: &Seed,
        decoy: &Seed,
        public_key: &mut [u8],
        secret_key: &mut [u8],
    )
        requires code { (length code.now.g.now ≡ self.old.sizes.t + 1) × (length code.now.support.now ≡ self.old.sizes.n) }
        requires keys { (length public_key.old ≡ self.old.sizes.public_key) × (length secret_key.old ≡ self.old.sizes.secret_key) }
        requires front { independent self.old.sizes.rows (matrix self.old.sizes.vector self.old.hp.now) ≡ true }
        ensures public { public_key.new ≡ public_key_of self.old.sizes (reduced_of self.old.sizes.rows (matrix self.old.sizes.vector self.old.hp.now)) }
        ensures secret { secret_key.new ≡ written self.old.sizes code.now.support.now code.now.g.now (matrix self.old.sizes.vector self.old.hp.now) mixing.now decoy.now }
    {
        let sizes = self.sizes;
        let hp = &mut *self.hp;
        let (support, g) = (code.support, code.g);
        write_secret(&sizes, support, g, hp, mixing, decoy, secret_key);
        write_public(&sizes, hp, public_key);
    }

    // Writes both keys of a code and a usable mixing seed.
    fn write_pair<F: BinaryField>(
        &mut self,
        code: &Code<'_, F>,
        mixing: &Seed,
        decoy: &Seed,
        public_key: &mut [u8],
        secret_key: &mut [u8],
    )
        requires field { F.Field.BITS ≡ self.old.sizes.m }
        requires code { (length code.now.g.now ≡ self.old.sizes.t + 1) × (length code.now.support.now ≡ self.old.sizes.n) }
        requires keys { (length public_key.old ≡ self.old.sizes.public_key) × (length secret_key.old ≡ self.old.sizes.secret_key) }
        requires usable { independent self.old.sizes.rows (mixed_by F.Field.ops F.Field.places self.old.sizes code.now.support.now code.now.g.now mixing.now) ≡ true }
        ensures public { public_key.new ≡ public_key_of self.old.sizes (reduced_of self.old.sizes.rows (mixed_by F.Field.ops F.Field.places self.old.sizes code.now.support.now code.now.g.now mixing.now)) }
        ensures secret { secret_key.new ≡ written self.old.sizes code.now.support.now code.now.g.now (mixed_by F.Field.ops F.Field.places self.old.sizes code.now.support.now code.now.g.now mixing.now) mixing.now decoy.now }
    {
        self.write_hp(code, mixing);
        self.write_keys(code, mixing, decoy, public_key, secret_key);
    }

    // The same with the seed that was taken from the list.
    fn write_taken<F: BinaryField>(
        &mut self,
        code: &Code<'_, F>,
        seeds: &Seeds<'_>,
        taken: usize,
        public_key: &mut [u8],
        secret_key: &mut [u8],
    )
        requires field { F.Field.BITS ≡ self.old.sizes.m }
        requires code { (length code.now.g.now ≡ self.old.sizes.t + 1) × (length code.now.support.now ≡ self.old.sizes.n) }
        requires taken { taken < count_of seeds.now.mixing.now }
        requires keys { (length public_key.old ≡ self.old.sizes.public_key) × (length secret_key.old ≡ self.old.sizes.secret_key) }
        requires usable { independent self.old.sizes.rows (mixed_by F.Field.ops F.Field.places self.old.sizes code.now.support.now code.now.g.now (seed_of seeds.now.mixing.now taken)) ≡ true }
        ensures public { public_key.new ≡ public_key_of self.old.sizes (reduced_of self.old.sizes.rows (mixed_by F.Field.ops F.Field.places self.old.sizes code.now.support.now code.now.g.now (seed_of seeds.now.mixing.now taken))) }
        ensures secret { secret_key.new ≡ written self.old.sizes code.now.support.now code.now.g.now (mixed_by F.Field.ops F.Field.places self.old.sizes code.now.support.now code.now.g.now (seed_of seeds.now.mixing.now taken)) (seed_of seeds.now.mixing.now taken) seeds.now.decoy.now }
    {
        let mixing = seed_at(seeds.mixing, taken);
        self.write_pair(code, mixing, seeds.decoy, public_key, secret_key);
    }

    // Makes a pair; the code is written in `all` and `g`.
    fn make<F: BinaryField>(
        &mut self,
        seeds: &Seeds<'_>,
        all: &mut [Place],
        g: &mut [Place],
        public_key: &mut [u8],
        secret_key: &mut [u8],
    ) -> Result<(), Fault>
        requires field { F.Field.BITS ≡ self.old.sizes.m }
        requires code { (length all.old ≡ 2 ^ F.Field.BITS) × (length g.old ≡ self.old.sizes.t + 1) }
        requires keys { (length public_key.old ≡ self.old.sizes.public_key) × (length secret_key.old ≡ self.old.sizes.secret_key) }
        ensures answer { result ≡ answer (seed_row F.Field.ops F.Field.places self.old.sizes seeds.now.code.now seeds.now.mixing.now ∷ []) }
        ensures gives { elim result [ Ok _ ↦ Made F.Field.ops F.Field.places self.old.sizes seeds.now.code.now seeds.now.mixing.now seeds.now.decoy.now public_key.new secret_key.new | Err _ ↦ (public_key.new ≡ public_key.old) × (secret_key.new ≡ secret_key.old) ] }
    {
        let code = write_code::<F>(&self.sizes, seeds.code, all, g);
        let Some(taken) = first_usable(
            &code,
            seeds.mixing,
            self.sizes.body,
            self.column,
            self.hp,
            self.order,
        ) else {
            return Err(Fault::NoUsableSeed(seeds.mixing.len() / 32));
        };
        self.write_taken(&code, seeds, taken, public_key, secret_key);
        Ok(())
    }
}

// Makes a pair in the work memory, once the tests have passed.
pub fn make_with<F: BinaryField>(
    sizes: &Sizes,
    seeds: &Seeds<'_>,
    public_key: &mut [u8],
    secret_key: &mut [u8],
    work: &mut Work<'_>,
) -> Result<(), Fault>
    requires field { F.Field.BITS ≡ sizes.now.m }
    requires work { (sizes.now.work_bytes ≤ length work.old.bytes.now) × ((sizes.now.work_places ≤ length work.old.places.now) × (sizes.now.work_places ≤ length work.old.positions.now)) }
    requires keys { (length public_key.old ≡ sizes.now.public_key) × (length secret_key.old ≡ sizes.now.secret_key) }
    ensures answer { result ≡ answer (seed_row F.Field.ops F.Field.places sizes.now seeds.now.code.now seeds.now.mixing.now ∷ []) }
    ensures gives { elim result [ Ok _ ↦ Made F.Field.ops F.Field.places sizes.now seeds.now.code.now seeds.now.mixing.now seeds.now.decoy.now public_key.new secret_key.new | Err _ ↦ (public_key.new ≡ public_key.old) × (secret_key.new ≡ secret_key.old) ] }
    ensures kept { work_of work.new.bytes.now work.new.places.now work.new.positions.now ≡ work_of work.old.bytes.now work.old.places.now work.old.positions.now }
{
    let bytes = &mut *work.bytes;
    let places = &mut *work.places;
    let positions = &mut *work.positions;
    let (all, rest) = places.split_at_mut(size::<F>());
    let (g, rest) = rest.split_at_mut(sizes.t + 1);
    let column = &mut rest[0..sizes.t];
    let hp = &mut bytes[0..sizes.rows * sizes.vector];
    let order = &mut positions[0..sizes.n];
    let mut parts = Parts {
        sizes: *sizes,
        hp,
        column,
        order,
    };
    parts.make::<F>(seeds, all, g, public_key, secret_key)
}
