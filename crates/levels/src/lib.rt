// What every layer shares: the levels with their table of sizes, the faults by which a call
// refuses, and the guards that clear lent work memory.
#![tactic(auto)]

ghost use Rattle.std.specs.Prelude.{◌≡◌, ◌+◌, ◌-◌, ◌*◌, ◌/◌, ◌^◌, ◌<◌, ◌≤◌};

pub mod checks;
pub mod faults;
pub mod guards;

use checks::WorkLengths;
use faults::Fault;
use std::str::FromStr;

// A level: the sizes of the code that a key pair is made for. The sample protects nothing.
#[derive(Clone, Copy, Debug, PartialEq, Eq)]
pub enum Level {
    Sample,
    Level128,
    Level192,
    Level256,
}

// The row of a level in the table of sizes. Elements are numbers below 2^m, vectors have n bits,
// error vectors have t ones, and matrices have mt rows; `vector` and `body` are n and mt in bytes.
#[derive(Clone, Copy)]
pub struct Sizes {
    pub m: usize,
    pub n: usize,
    pub t: usize,
    pub k: usize,
    pub rows: usize,
    pub vector: usize,
    pub body: usize,
    pub public_key: usize,
    pub secret_key: usize,
    pub ticket: usize,
    pub capacity: usize,
    pub work_bytes: usize,
    pub work_places: usize,
    pub ghost matrix_rows: { rows ≡ m * t },
    pub ghost columns: { n ≡ rows + k },
    pub ghost vector_bits: { n ≡ 8 * vector },
    pub ghost body_bits: { rows ≡ 8 * body },
    pub ghost front: { 0 < body },
    pub ghost back: { body < vector },
    pub ghost code: { n + t ≤ 2 ^ m },
    pub ghost weight: { t ≤ n },
    pub ghost corrects: { 2 ≤ t },
    pub ghost field: { 0 < m },
    pub ghost narrow: { m ≤ 16 },
    pub ghost small: { n < 2 ^ 16 },
    // The lengths of keys and tickets.
    pub ghost public_bytes: { public_key ≡ rows * (vector - body) },
    pub ghost secret_bytes: { secret_key ≡ 2 * n + 2 * t + rows * body + 64 },
    pub ghost ticket_bytes: { ticket ≡ 32 + body },
    pub ghost hashed: { capacity ≡ 40 + vector + body },
    // What the work memory has room for: a vector's order; two vectors and a body; HP.
    pub ghost order: { n ≤ work_places },
    pub ghost vectors: { 2 * vector + body ≤ work_bytes },
    pub ghost mixed: { rows * vector ≤ work_bytes },
    // All elements, g and a column.
    pub ghost elements: { 2 ^ m + (t + 1) + t ≤ work_places },
    // g, the support, a syndrome, a locator and its values or the steps to it.
    pub ghost values: { t + 1 + n + (t + 2 * (t / 2 + 1)) + n ≤ work_places },
    pub ghost steps: { t + 1 + n + (t + 2 * (t / 2 + 1)) + 17 * (t + 1) ≤ work_places },
    // g, a column, the support and the values there.
    pub ghost tests: { (t + 1) + t + (n + n) ≤ work_places },
}

// The level that a text names.
impl FromStr for Level {
    ghost use Rattle.levels.specs.Names.{level_of};

    type Err = Fault;

    ghost from_str_gives = { λ name answer. answer ≡ level_of name };

    fn from_str(name: &str) -> Result<Level, Fault> {
        match name {
            "sample" => Ok(Level::Sample),
            "128" => Ok(Level::Level128),
            "192" => Ok(Level::Level192),
            "256" => Ok(Level::Level256),
            _ => Err(Fault::NoLevel),
        }
    }
}

impl Level {
    ghost use Rattle.levels.specs.Table.{sizes_of, Lawful};

    // The level's row in the table.
    pub fn sizes(self) -> Sizes
        ensures table { result ≡ sizes_of self }
        ensures lawful { Lawful result }
    {
        match self {
            Level::Sample => Sizes {
                m: 6,
                n: 56,
                t: 4,
                k: 32,
                rows: 24,
                vector: 7,
                body: 3,
                public_key: 96,
                secret_key: 256,
                ticket: 35,
                capacity: 50,
                work_bytes: 4096,
                work_places: 512,
            },
            Level::Level128 => Sizes {
                m: 13,
                n: 3904,
                t: 64,
                k: 3072,
                rows: 832,
                vector: 488,
                body: 104,
                public_key: 319488,
                secret_key: 94528,
                ticket: 136,
                capacity: 632,
                work_bytes: 2097152,
                work_places: 16384,
            },
            Level::Level192 => Sizes {
                m: 13,
                n: 5568,
                t: 128,
                k: 3904,
                rows: 1664,
                vector: 696,
                body: 208,
                public_key: 812032,
                secret_key: 357568,
                ticket: 240,
                capacity: 944,
                work_bytes: 2097152,
                work_places: 16384,
            },
            Level::Level256 => Sizes {
                m: 13,
                n: 6592,
                t: 128,
                k: 4928,
                rows: 1664,
                vector: 824,
                body: 208,
                public_key: 1025024,
                secret_key: 359616,
                ticket: 240,
                capacity: 1072,
                work_bytes: 2097152,
                work_places: 16384,
            },
        }
    }
}

impl Sizes {
    ghost use Rattle.levels.specs.Rows.{work_of_level};

    // What the level needs of the work memory: as many positions as elements.
    pub fn work(&self) -> WorkLengths
        ensures { result ≡ work_of_level self.now }
    {
        WorkLengths {
            bytes: self.work_bytes,
            places: self.work_places,
            positions: self.work_places,
        }
    }
}
