// The C interface: numbers as themselves, and a slice as a pointer and a length. A kind of hash is
// 0 for SHA3-512 and any other number for SHA-512. Each function gives a refusal's number, or 0.
#![tactic(auto)]

ghost use Rattle.std.specs.Prelude.{◌≡◌, ◌*◌, ◌^◌, ◌<◌, min, [], length, if◌then◌else◌, nat_eq};
ghost use Rattle.levels.specs.Names.{level_of};
ghost use Rattle.levels.specs.Work.{Cleared};
ghost use Rattle.shuffles.specs.Shuffle.{shuffled};
ghost use Rattle.levels.specs.Rows.{work_of};
ghost use Rattle.sealing.specs.Calls.{checked_at, accepted, lengths_of};
ghost use Rattle.capi.specs.Codes.{told, number_of, report_after, rule_of, GivenBy, error_vector_answer, error_vector_after, permute_answer, permuted, permute_after, hash_answer, hash_after};

pub mod kinds;
pub mod narrow;
pub mod pairs;

use hashes::Hash;
use kinds::AnyHash;
use levels::Level;
use levels::faults::{Fault, Report};
use levels::guards::{Place, Position, PositionsGuard, Work};
use narrow::Narrow;
use shuffles::Seed;

// An answer as number, layer, part and place.
fn told_of(answer: Result<(), Fault>) -> [u64; 4]
    ensures { result ≡ told answer }
{
    match answer {
        Ok(()) => [0; 4],
        Err(fault) => {
            let r = Report::from(fault);
            let part = match r.part {
                Some(part) => part as u64,
                None => 0,
            };
            [u64::from(r.number), r.layer as u64, part, r.place as u64]
        }
    }
}

// The number of an answer, 0 for an acceptance.
fn number(answer: Result<(), Fault>) -> u64
    ensures { result ≡ number_of answer }
{
    told_of(answer)[0]
}

// Writes an answer as number, layer, part and place, or zeros, where there are four entries.
fn tell(answer: Result<(), Fault>, report: &mut [u64]) -> u64
    ensures number { result ≡ number_of answer }
    ensures report { report.new ≡ report_after report.old answer }
{
    if report.len() == 4 {
        report.copy_from_slice(&told_of(answer));
    }
    number(answer)
}

// Starts the hash, takes two lists of bytes, and writes what comes.
fn digest<H: Hash>(hash: &mut H, first: &[u8], second: &[u8], out: &mut [u8]) -> Result<(), Fault>
    ensures answer { number_of result ≡ hash_answer (H.capacity hash.old) first.now second.now out.old }
    ensures gives { out.new ≡ hash_after (H.capacity hash.old) (H.rule hash.old) first.now second.now out.old }
{
    if out.len() != 32 {
        return Err(Fault::WrongLength(1));
    }
    let mut block = [0; 32];
    hash.start();
    hash.take(first)?;
    hash.take(second)?;
    hash.finish(&mut block);
    out.copy_from_slice(&block);
    Ok(())
}

#[unsafe(no_mangle)]
pub extern "C" fn zq_hash(kind: u8, capacity: usize, bytes: &[u8], out: &mut [u8]) -> u64
    ensures answer { result ≡ hash_answer (min capacity 65536) bytes.now [] out.old }
    ensures gives { out.new ≡ hash_after (min capacity 65536) (rule_of kind) bytes.now [] out.old }
{
    let hash = &mut Narrow::over(AnyHash::from(kind), capacity);
    number(digest(hash, bytes, &[], out))
}

#[unsafe(no_mangle)]
pub extern "C" fn zq_hash_in_two(kind: u8, first: &[u8], second: &[u8], out: &mut [u8]) -> u64
    ensures answer { result ≡ hash_answer 65536 first.now second.now out.old }
    ensures gives { out.new ≡ hash_after 65536 (rule_of kind) first.now second.now out.old }
{
    number(digest(&mut AnyHash::from(kind), first, second, out))
}

// Tests, and then shuffles.
fn shuffle_by(seed: &[u8], items: &mut [Position]) -> Result<(), Fault>
    ensures answer { number_of result ≡ (if nat_eq (length seed.now) 32 then 0 else 3) }
    ensures gives { items.new ≡ (if nat_eq (length seed.now) 32 then shuffled seed.now items.old else items.old) }
{
    let Some(seed) = seed.as_array() else {
        return Err(Fault::WrongLength(0));
    };
    shuffles::shuffle(items, seed);
    Ok(())
}

#[unsafe(no_mangle)]
pub extern "C" fn zq_shuffle(seed: &[u8], items: &mut [Position]) -> u64
    ensures answer { result ≡ (if nat_eq (length seed.now) 32 then 0 else 3) }
    ensures gives { items.new ≡ (if nat_eq (length seed.now) 32 then shuffled seed.now items.old else items.old) }
{
    number(shuffle_by(seed, items))
}

// Permutes a vector by a seed. The C interface names the direction by a number.
fn permute(seed: &Seed, inverse: u8, vector: &[u8], out: &mut [u8], order: &mut [Position])
    requires { (length out.old ≡ length vector.now) × ((length order.old ≡ 8 * length vector.now) × (length order.old < 2 ^ 32)) }
    ensures { out.new ≡ permuted inverse seed.now vector.now }
{
    if inverse == 0 {
        shuffles::perm_by(order, seed, vector, out);
    } else {
        shuffles::perm_inv_by(order, seed, vector, out);
    }
}

// Tests, and then permutes.
fn permute_by(
    seed: &[u8],
    inverse: u8,
    vector: &[u8],
    out: &mut [u8],
    positions: &mut [Position],
) -> Result<(), Fault>
    ensures answer { number_of result ≡ permute_answer seed.now vector.now out.old (length positions.old) }
    ensures gives { out.new ≡ permute_after inverse seed.now vector.now out.old (length positions.old) }
{
    let Some(seed) = seed.as_array() else {
        return Err(Fault::WrongLength(0));
    };
    if out.len() != vector.len() || vector.len() >= 0x1000_0000 {
        return Err(Fault::WrongLength(1));
    }
    if positions.len() < 8 * vector.len() {
        return Err(Fault::WrongLength(2));
    }
    permute(
        seed,
        inverse,
        vector,
        out,
        &mut positions[0..8 * vector.len()],
    );
    Ok(())
}

#[unsafe(no_mangle)]
pub extern "C" fn zq_permute(
    seed: &[u8],
    inverse: u8,
    vector: &[u8],
    out: &mut [u8],
    positions: &mut [Position],
) -> u64
    ensures answer { result ≡ permute_answer seed.now vector.now out.old (length positions.old) }
    ensures gives { out.new ≡ permute_after inverse seed.now vector.now out.old (length positions.old) }
    ensures positions { Cleared positions.old positions.new }
{
    let p = PositionsGuard { positions };
    number(permute_by(seed, inverse, vector, out, &mut p.positions[..]))
}

// Tests, and then writes the error vector.
fn error_vector_at(
    level: &str,
    seed: &[u8],
    out: &mut [u8],
    positions: &mut [Position],
) -> Result<(), Fault>
    ensures answer { number_of result ≡ error_vector_answer (level_of level.now) seed.now out.old (length positions.old) }
    ensures gives { out.new ≡ error_vector_after (level_of level.now) seed.now out.old (length positions.old) }
{
    let sizes = level.parse::<Level>()?.sizes();
    let Some(seed) = seed.as_array() else {
        return Err(Fault::WrongLength(0));
    };
    if out.len() != sizes.vector {
        return Err(Fault::WrongLength(1));
    }
    if positions.len() < sizes.n {
        return Err(Fault::ShortWork(2));
    }
    let n = sizes.n;
    shuffles::error_vector(&mut positions[0..n], sizes.t, seed, out);
    Ok(())
}

// The bytes as a text that names the same level. Bytes that are not UTF-8 name none, as the empty text
// does. It is a match, since the proof by `unwrap_or` did not close.
fn text(bytes: &[u8]) -> &str
    ensures { level_of result.now ≡ level_of bytes.now }
{
    match std::str::from_utf8(bytes) {
        Ok(name) => name,
        Err(_) => "",
    }
}

#[unsafe(no_mangle)]
pub extern "C" fn zq_error_vector(
    level: &[u8],
    seed: &[u8],
    out: &mut [u8],
    positions: &mut [Position],
) -> u64
    ensures answer { result ≡ error_vector_answer (level_of level.now) seed.now out.old (length positions.old) }
    ensures gives { out.new ≡ error_vector_after (level_of level.now) seed.now out.old (length positions.old) }
    ensures positions { Cleared positions.old positions.new }
{
    let p = PositionsGuard { positions };
    number(error_vector_at(text(level), seed, out, &mut p.positions[..]))
}

#[unsafe(no_mangle)]
pub extern "C" fn zq_seal(
    level: &[u8],
    public_key: &[u8],
    ticket_seed: &[u8],
    ticket: &mut [u8],
    key: &mut [u8],
    kind: u8,
    capacity: usize,
    bytes: &mut [u8],
    places: &mut [Place],
    positions: &mut [Position],
    report: &mut [u64],
) -> u64
    ensures answer { result ≡ number_of (accepted (checked_at (level_of level.now) (lengths_of public_key.now ticket_seed.now ticket.old key.old) (work_of bytes.old places.old positions.old) (min capacity 65536))) }
    ensures report { report.new ≡ report_after report.old (accepted (checked_at (level_of level.now) (lengths_of public_key.now ticket_seed.now ticket.old key.old) (work_of bytes.old places.old positions.old) (min capacity 65536))) }
    ensures gives { GivenBy (accepted (checked_at (level_of level.now) (lengths_of public_key.now ticket_seed.now ticket.old key.old) (work_of bytes.old places.old positions.old) (min capacity 65536))) (level_of level.now) (rule_of kind) public_key.now ticket_seed.now ticket.old ticket.new key.old key.new }
    ensures bytes { Cleared bytes.old bytes.new }
    ensures places { Cleared places.old places.new }
    ensures positions { Cleared positions.old positions.new }
{
    let mut hash = Narrow::over(AnyHash::from(kind), capacity);
    let work = Work {
        bytes,
        places,
        positions,
    };
    let answer = sealing::seal(
        text(level),
        public_key,
        ticket_seed,
        ticket,
        key,
        &mut hash,
        work,
    );
    tell(answer, report)
}
