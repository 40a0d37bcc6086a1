// Makes a pair of keys and seals one ticket to it, and says line by line what it read and what it
// made. Its words are a level's name and the files of a code seed, of mixing seeds one after the
// other, of a decoy seed and of a ticket seed.
#![tactic(auto)]

use anyhow::Context;
use levels::faults::Report;
use levels::guards::Work;
use levels::{Level, Sizes};
use std::alloc::Global;
use std::{env, fs};
use tasks::failures::Failure;
use tasks::memory::Memory;
use tasks::sealed::seal;
use tasks::shown::Hex;

// What the shop makes its keys from.
#[derive(Drop)]
struct Seeds {
    code: Vec<u8>,
    mixing: Vec<u8>,
    decoy: Vec<u8>,
}

// What a make makes.
#[derive(Drop)]
struct Pair {
    public_key: Vec<u8>,
    secret_key: Vec<u8>,
}

// Makes the pair of the seeds.
fn make(
    heap: Global,
    level: &str,
    sizes: &Sizes,
    seeds: &Seeds,
    memory: &mut Memory,
) -> Result<Pair, Failure> {
    let mut public_key = vec![in heap; 0u8; sizes.public_key]?;
    let mut secret_key = vec![in heap; 0u8; sizes.secret_key]?;
    keys::make(
        level,
        &seeds.code,
        &seeds.mixing,
        &seeds.decoy,
        &mut public_key,
        &mut secret_key,
        Work {
            bytes: &mut memory.bytes,
            places: &mut memory.places,
            positions: &mut memory.positions,
        },
    )?;
    Ok(Pair {
        public_key,
        secret_key,
    })
}

// What the shop's keys are made from.
fn tell_seeds(rt: &HostRuntime, level: &str, seeds: &Seeds) -> anyhow::Result<()> {
    println!(rt;
        "Read the level, the shop's code seed, its mixing seeds one after the other, and its decoy seed:"
    )?;
    println!(rt; "level={level}")?;
    println!(rt; "code_seed={}", Hex(&seeds.code))?;
    println!(rt; "mixing_seeds={}", Hex(&seeds.mixing))?;
    println!(rt; "decoy_seed={}", Hex(&seeds.decoy))?;
    Ok(())
}

// The keys.
fn tell_pair(rt: &HostRuntime, pair: &Pair) -> anyhow::Result<()> {
    println!(rt;
        "Made the pair with the first usable mixing seed. The public key goes to customers, the secret key stays in the shop:"
    )?;
    println!(rt; "public_key={}", Hex(&pair.public_key))?;
    println!(rt; "secret_key={}", Hex(&pair.secret_key))?;
    Ok(())
}

// What the ticket is made from, beside the public key.
fn tell_ticket_seed(rt: &HostRuntime, seed: &[u8]) -> anyhow::Result<()> {
    println!(rt; "Read the customer's ticket seed:")?;
    println!(rt; "ticket_seed={}", Hex(seed))?;
    Ok(())
}

// The four lines of a refusal.
fn tell(rt: &HostRuntime, failure: Failure) -> anyhow::Result<()> {
    match failure {
        Failure::Refused(fault) => println!(rt; "{}", Report::from(fault))?,
        Failure::NoMemory(error) => return Err(error.into()),
    }
    Ok(())
}

// Makes a pair and seals to it at a level that there is.
fn make_and_seal(
    rt: &HostRuntime,
    level: &str,
    sizes: &Sizes,
    seeds: &Seeds,
    ticket_seed: &[u8],
) -> anyhow::Result<()> {
    let heap = rt.alloc();
    let mut memory = Memory::new(heap, sizes)?;
    let pair = match make(heap, level, sizes, seeds, &mut memory) {
        Ok(pair) => pair,
        Err(failure) => return tell(rt, failure),
    };
    tell_pair(rt, &pair)?;
    tell_ticket_seed(rt, ticket_seed)?;
    match seal(
        heap,
        level,
        sizes,
        &pair.public_key,
        ticket_seed,
        &mut memory,
    ) {
        Ok(sealed) => {
            println!(rt;
                "Sealed to the public key with SHA3-512. The head hides the vector, the body is for the shop to decode:"
            )?;
            println!(rt; "{sealed}")?;
            Ok(())
        }
        Err(failure) => tell(rt, failure),
    }
}

fn run(rt: &HostRuntime) -> anyhow::Result<()> {
    let mut words = env::args(rt)?.skip(1);
    let level = words.next().context("no level")?;
    let code = fs::read(rt, words.next().context("no code seed")?)?;
    let mixing = fs::read(rt, words.next().context("no mixing seeds")?)?;
    let decoy = fs::read(rt, words.next().context("no decoy seed")?)?;
    let ticket_seed = fs::read(rt, words.next().context("no ticket seed")?)?;
    let seeds = Seeds {
        code,
        mixing,
        decoy,
    };
    tell_seeds(rt, &level, &seeds)?;
    match level.parse::<Level>() {
        Ok(named) => make_and_seal(rt, &level, &named.sizes(), &seeds, &ticket_seed),
        Err(fault) => tell(rt, fault.into()),
    }
}

fn main(rt: HostRuntime) -> anyhow::Result<()> {
    run(&rt)
}
