// Seals one ticket, and says line by line what it read and what it made. Its words are a level's
// name, the file of a public key and the file of a ticket seed.
#![tactic(auto)]

use anyhow::Context;
use levels::Level;
use levels::faults::Report;
use std::{env, fs};
use tasks::failures::Failure;
use tasks::memory::Memory;
use tasks::sealed::{Sealed, seal};
use tasks::shown::Hex;

// What was read.
fn tell_input(rt: &HostRuntime, level: &str, public_key: &[u8], seed: &[u8]) -> anyhow::Result<()> {
    println!(rt; "Read the level, the shop's public key and the customer's ticket seed:")?;
    println!(rt; "level={level}")?;
    println!(rt; "public_key={}", Hex(public_key))?;
    println!(rt; "ticket_seed={}", Hex(seed))?;
    Ok(())
}

// Seals in memory of the level's size.
fn seal_at(
    rt: &HostRuntime,
    level: &str,
    public_key: &[u8],
    seed: &[u8],
) -> Result<Sealed, Failure> {
    let sizes = level.parse::<Level>()?.sizes();
    let mut memory = Memory::new(rt.alloc(), &sizes)?;
    seal(rt.alloc(), level, &sizes, public_key, seed, &mut memory)
}

fn run(rt: &HostRuntime) -> anyhow::Result<()> {
    let mut words = env::args(rt)?.skip(1);
    let level = words.next().context("no level")?;
    let public_key = fs::read(rt, words.next().context("no public key")?)?;
    let seed = fs::read(rt, words.next().context("no ticket seed")?)?;
    tell_input(rt, &level, &public_key, &seed)?;
    match seal_at(rt, &level, &public_key, &seed) {
        Ok(sealed) => {
            println!(rt;
                "Sealed with SHA3-512. The head hides the vector, the body is for the shop to decode:"
            )?;
            println!(rt; "{sealed}")?;
        }
        Err(Failure::Refused(fault)) => println!(rt; "{}", Report::from(fault))?,
        Err(Failure::NoMemory(error)) => return Err(error.into()),
    }
    Ok(())
}

fn main(rt: HostRuntime) -> anyhow::Result<()> {
    run(&rt)
}
