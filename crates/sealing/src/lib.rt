// Sealing: a customer seals a key in a ticket to a public key.
#![tactic(auto)]

ghost use Rattle.std.specs.Prelude.{◌≡◌, ℕ, ◌+◌, ◌-◌, ◌*◌, ◌^◌, ◌<◌, ◌≤◌, [], ◌++◌, length, Ok, Err, codes};
ghost use Rattle.levels.specs.Names.{level_of};
ghost use Rattle.levels.specs.Rows.{answer, work_of};
ghost use Rattle.levels.specs.Work.{Cleared};
ghost use Rattle.hashes.specs.Restarted.{Restarted};
ghost use Rattle.sealing.specs.Calls.{seal_rows, checked_at, accepted, Sealed, SealedAt, lengths_of};

use bits::join;
use hashes::Hash;
use hashes::labelled::digest;
use levels::checks::{WorkLengths, check_capacity, check_work};
use levels::faults::Fault;
use levels::guards::{BytesGuard, PlacesGuard, Position, PositionsGuard, Work};
use levels::{Level, Sizes};
use shuffles::Seed;

// The lengths of the buffers of a seal, in their order.
#[derive(Clone, Copy)]
pub struct Lengths {
    pub public_key: usize,
    pub ticket_seed: usize,
    pub ticket: usize,
    pub key: usize,
}

// The rows after the level's, in their order.
fn check_rows(
    sizes: &Sizes,
    buffers: Lengths,
    work: WorkLengths,
    capacity: usize,
) -> Result<(), Fault>
    ensures { result ≡ answer (seal_rows sizes.now buffers work capacity) }
{
    if buffers.public_key != sizes.public_key {
        return Err(Fault::WrongLength(0));
    }
    if buffers.ticket_seed != 32 {
        return Err(Fault::WrongLength(1));
    }
    if buffers.ticket != sizes.ticket {
        return Err(Fault::WrongLength(2));
    }
    if buffers.key != 32 {
        return Err(Fault::WrongLength(3));
    }
    check_work(sizes.work(), work)?;
    check_capacity(sizes.capacity, capacity)
}

// The level's sizes, or the first refusal that applies.
fn check(level: &str, buffers: Lengths, work: WorkLengths, capacity: usize) -> Result<Sizes, Fault>
    ensures { result ≡ checked_at (level_of level.now) buffers work capacity }
{
    let sizes = level.parse::<Level>()?.sizes();
    check_rows(&sizes, buffers, work, capacity)?;
    Ok(sizes)
}

// Writes the head for a vector, and leaves the hash as start does.
pub fn write_head<H: Hash>(hash: &mut H, e: &[u8], head: &mut [u8; 32])
    requires { 8 + length e.now ≤ H.capacity hash.old }
    ensures wrote { head.new ≡ H.rule hash.old (codes "PALOMAGG" ++ (e.now ++ [])) }
    ensures restarted { Restarted H.capacity H.left H.rule H.outcome hash.old hash.new }
{
    digest(hash, b"PALOMAGG", e, &[], head);
}

// Writes the key for a vector and a ticket, and leaves the hash as start does.
pub fn write_key<H: Hash>(hash: &mut H, e: &[u8], ticket: &[u8], key: &mut [u8; 32])
    requires { 8 + (length e.now + length ticket.now) ≤ H.capacity hash.old }
    ensures wrote { key.new ≡ H.rule hash.old (codes "PALOMAHH" ++ (e.now ++ ticket.now)) }
    ensures restarted { Restarted H.capacity H.left H.rule H.outcome hash.old hash.new }
{
    digest(hash, b"PALOMAHH", e, ticket, key);
}

// What a seal writes in the work memory from a vector, over any content: its permutation, the order
// of the permutation, and the body of a ticket. They are lent apart, so each has its own lifetime.
#[derive(Drop)]
struct Parts<'v, 'b, 'p> {
    sizes: Sizes,
    permuted: &'v mut [u8],
    body: &'b mut [u8],
    order: &'p mut [Position],
    ghost vector: { length permuted.now ≡ sizes.vector },
    ghost back: { length body.now ≡ sizes.body },
    ghost positions: { length order.now ≡ sizes.n },
}

impl Parts<'_, '_, '_> {
    ghost use Rattle.bits.specs.Packed.{vector, packed};
    ghost use Rattle.sealing.specs.Tickets.{body_of, Seals};
    ghost use Rattle.sealing.specs.Calls.{public_matrix, Sealed};

    // Writes the body of the ticket for a vector and the ticket's head.
    fn write_body(&mut self, public_key: &[u8], e: &[u8], head: &[u8; 32])
        requires { (length public_key.now ≡ self.old.sizes.public_key) × (length e.now ≡ self.old.sizes.vector) }
        ensures body { self.new.body.now ≡ body_of self.old.sizes (public_matrix self.old.sizes public_key.now) head.now (vector e.now) }
        ensures same { self.new.sizes ≡ self.old.sizes }
    {
        shuffles::perm_by(self.order, head, e, self.permuted);
        matrices::systematic_product(public_key, self.permuted, self.body);
    }

    // Writes the ticket for a vector, and leaves the hash as start does.
    fn write_ticket<H: Hash>(
        &mut self,
        public_key: &[u8],
        e: &[u8],
        hash: &mut H,
        ticket: &mut [u8],
    )
        requires inputs { (length public_key.now ≡ self.old.sizes.public_key) × (length e.now ≡ self.old.sizes.vector) }
        requires output { length ticket.old ≡ self.old.sizes.ticket }
        requires capacity { self.old.sizes.capacity ≤ H.capacity hash.old }
        ensures wrote { Seals self.old.sizes (H.rule hash.old) (public_matrix self.old.sizes public_key.now) (vector e.now) ticket.new }
        ensures restarted { Restarted H.capacity H.left H.rule H.outcome hash.old hash.new }
    {
        let mut head = [0; 32];
        write_head(hash, e, &mut head);
        self.write_body(public_key, e, &head);
        join(&head, self.body, ticket);
    }

    // Seals the seed's error vector.
    fn seal<H: Hash>(
        &mut self,
        public_key: &[u8],
        ticket_seed: &Seed,
        ticket: &mut [u8],
        key: &mut [u8],
        hash: &mut H,
        e: &mut [u8],
    )
        requires input { length public_key.now ≡ self.old.sizes.public_key }
        requires outputs { (length ticket.old ≡ self.old.sizes.ticket) × (length key.old ≡ 32) }
        requires vector { length e.old ≡ self.old.sizes.vector }
        requires capacity { self.old.sizes.capacity ≤ H.capacity hash.old }
        ensures sealed { Sealed self.old.sizes (H.rule hash.old) public_key.now ticket_seed.now ticket.new key.new }
        ensures restarted { Restarted H.capacity H.left H.rule H.outcome hash.old hash.new }
    {
        shuffles::error_vector(self.order, self.sizes.t, ticket_seed, e);
        self.write_ticket(public_key, e, hash, ticket);
        let mut made = [0; 32];
        write_key(hash, e, ticket, &mut made);
        key.copy_from_slice(&made);
    }
}

// Seals in the work memory, once the tests have passed.
fn seal_checked<H: Hash>(
    sizes: &Sizes,
    public_key: &[u8],
    ticket_seed: &Seed,
    ticket: &mut [u8],
    key: &mut [u8],
    hash: &mut H,
    work: &mut Work<'_>,
)
    requires input { length public_key.now ≡ sizes.now.public_key }
    requires outputs { (length ticket.old ≡ sizes.now.ticket) × (length key.old ≡ 32) }
    requires work { (sizes.now.work_bytes ≤ length work.old.bytes.now) × (sizes.now.work_places ≤ length work.old.positions.now) }
    requires capacity { sizes.now.capacity ≤ H.capacity hash.old }
    ensures sealed { Sealed sizes.now (H.rule hash.old) public_key.now ticket_seed.now ticket.new key.new }
    ensures restarted { Restarted H.capacity H.left H.rule H.outcome hash.old hash.new }
    ensures lengths { work_of work.new.bytes.now work.new.places.now work.new.positions.now ≡ work_of work.old.bytes.now work.old.places.now work.old.positions.now }
{
    let bytes = &mut *work.bytes;
    let positions = &mut *work.positions;
    let (e, rest) = bytes.split_at_mut(sizes.vector);
    let (permuted, rest) = rest.split_at_mut(sizes.vector);
    let body = &mut rest[..sizes.body];
    let order = &mut positions[..sizes.n];
    let mut parts = Parts {
        sizes: *sizes,
        permuted,
        body,
        order,
    };
    parts.seal(public_key, ticket_seed, ticket, key, hash, e);
}

// Tests, and then seals.
fn seal_within<H: Hash>(
    level: &str,
    public_key: &[u8],
    ticket_seed: &[u8],
    ticket: &mut [u8],
    key: &mut [u8],
    hash: &mut H,
    work: &mut Work<'_>,
) -> Result<(), Fault>
    ensures answer { result ≡ accepted (checked_at (level_of level.now) (lengths_of public_key.now ticket_seed.now ticket.old key.old) (work_of work.old.bytes.now work.old.places.now work.old.positions.now) (H.capacity hash.old)) }
    ensures gives { elim result [ Ok _ ↦ SealedAt (level_of level.now) (H.rule hash.old) public_key.now ticket_seed.now ticket.new key.new × (H.left hash.new ≡ H.capacity hash.old) × (H.outcome hash.new ≡ H.rule hash.old) | Err _ ↦ (ticket.new ≡ ticket.old) × (key.new ≡ key.old) × (hash.new ≡ hash.old) ] }
    ensures same { H.rule hash.new ≡ H.rule hash.old }
    ensures kept { H.capacity hash.new ≡ H.capacity hash.old }
    ensures lengths { work_of work.new.bytes.now work.new.places.now work.new.positions.now ≡ work_of work.old.bytes.now work.old.places.now work.old.positions.now }
{
    let buffers = Lengths {
        public_key: public_key.len(),
        ticket_seed: ticket_seed.len(),
        ticket: ticket.len(),
        key: key.len(),
    };
    let sizes = check(level, buffers, work.lengths(), hash.capacity())?;
    let Some(ticket_seed) = ticket_seed.as_array() else {
        unreachable!()
    };
    seal_checked(&sizes, public_key, ticket_seed, ticket, key, hash, work);
    Ok(())
}

// Seals the key for a ticket seed to a public key: writes the ticket, and the key. A refusal leaves
// ticket, key and hash as they were. All work memory is zero in the end, whatever it held.
pub fn seal<H: Hash>(
    level: &str,
    public_key: &[u8],
    ticket_seed: &[u8],
    ticket: &mut [u8],
    key: &mut [u8],
    hash: &mut H,
    work: Work<'_>,
) -> Result<(), Fault>
    ensures answer { result ≡ accepted (checked_at (level_of level.now) (lengths_of public_key.now ticket_seed.now ticket.old key.old) (work_of work.entry.bytes.now work.entry.places.now work.entry.positions.now) (H.capacity hash.old)) }
    ensures gives { elim result [ Ok _ ↦ SealedAt (level_of level.now) (H.rule hash.old) public_key.now ticket_seed.now ticket.new key.new × (H.left hash.new ≡ H.capacity hash.old) × (H.outcome hash.new ≡ H.rule hash.old) | Err _ ↦ (ticket.new ≡ ticket.old) × (key.new ≡ key.old) × (hash.new ≡ hash.old) ] }
    ensures same { H.rule hash.new ≡ H.rule hash.old }
    ensures kept { H.capacity hash.new ≡ H.capacity hash.old }
    ensures bytes { Cleared work.entry.bytes.now work.exit.0.now }
    ensures places { Cleared work.entry.places.now work.exit.1.0.now }
    ensures positions { Cleared work.entry.positions.now work.exit.1.1.0.now }
{
    let Work {
        bytes,
        places,
        positions,
    } = work;
    let b = BytesGuard { bytes };
    let e = PlacesGuard { places };
    let p = PositionsGuard { positions };
    seal_within(
        level,
        public_key,
        ticket_seed,
        ticket,
        key,
        hash,
        &mut Work {
            bytes: &mut b.bytes[..],
            places: &mut e.places[..],
            positions: &mut p.positions[..],
        },
    )
}
