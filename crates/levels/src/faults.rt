// The faults by which a call says no.
ghost use Rattle.std.specs.Prelude.{◌≡◌};
ghost use Rattle.levels.specs.Faults.{report_of, layer_name, part_name, name_of_part};

use std::fmt;

// Why a written key is not sound: the first test that fails, and its place.
#[derive(Clone, Copy, Debug, PartialEq, Eq)]
pub enum Defect {
    Support(usize),
    Coefficient(usize),
    Clash(usize),
    Zeros(usize),
    Matrix(usize),
    Rank(usize),
}

// A refusal, with its place where it has one.
#[derive(Clone, Copy, Debug, PartialEq, Eq)]
pub enum Fault {
    NoLevel,
    NoKey,
    WrongLength(usize),
    ShortWork(usize),
    SmallCapacity,
    NoUsableSeed(usize),
    Unsound(Defect),
    OutOfForm(usize),
}

// The layer that refuses, with the number by which C knows it.
#[derive(Clone, Copy, Debug, PartialEq, Eq)]
pub enum Layer {
    Call = 1,
    Hatch,
    Hash,
    Key,
    Line,
}

// The part of a written key that is not sound, with the number by which C knows it.
#[derive(Clone, Copy, Debug, PartialEq, Eq)]
pub enum Part {
    Support = 1,
    Coefficient,
    Clash,
    Zeros,
    Matrix,
    Rank,
}

// A fault in the four values that callers see. Only a key that is not sound has a part.
#[derive(Clone, Copy, Debug, PartialEq, Eq)]
pub struct Report {
    pub number: u8,
    pub layer: Layer,
    pub part: Option<Part>,
    pub place: usize,
}

impl From<Fault> for Report {
    ghost from_gives = { λ fault report. report ≡ report_of fault };

    fn from(fault: Fault) -> Report {
        let (number, layer, part, place) = match fault {
            Fault::NoLevel => (1, Layer::Call, None, 0),
            Fault::NoKey => (2, Layer::Hatch, None, 0),
            Fault::WrongLength(buffer) => (3, Layer::Call, None, buffer),
            Fault::ShortWork(slice) => (4, Layer::Call, None, slice),
            Fault::SmallCapacity => (5, Layer::Hash, None, 0),
            Fault::NoUsableSeed(tried) => (6, Layer::Key, None, tried),
            Fault::Unsound(Defect::Support(at)) => (7, Layer::Key, Some(Part::Support), at),
            Fault::Unsound(Defect::Coefficient(at)) => (7, Layer::Key, Some(Part::Coefficient), at),
            Fault::Unsound(Defect::Clash(at)) => (7, Layer::Key, Some(Part::Clash), at),
            Fault::Unsound(Defect::Zeros(found)) => (7, Layer::Key, Some(Part::Zeros), found),
            Fault::Unsound(Defect::Matrix(row)) => (7, Layer::Key, Some(Part::Matrix), row),
            Fault::Unsound(Defect::Rank(rank)) => (7, Layer::Key, Some(Part::Rank), rank),
            Fault::OutOfForm(line) => (8, Layer::Line, None, line),
        };
        Report {
            number,
            layer,
            part,
            place,
        }
    }
}

impl Layer {
    // The layer's name as it is printed. `Display` prints it, and this contract says what it is.
    pub fn name(self) -> &'static str
        ensures { result.now ≡ layer_name self }
    {
        match self {
            Layer::Call => "call",
            Layer::Hatch => "hatch",
            Layer::Hash => "hash",
            Layer::Key => "key",
            Layer::Line => "line",
        }
    }
}

impl Part {
    // The part's name as it is printed. `Display` prints it, and this contract says what it is.
    pub fn name(self) -> &'static str
        ensures { result.now ≡ part_name self }
    {
        match self {
            Part::Support => "support",
            Part::Coefficient => "coefficient",
            Part::Clash => "clash",
            Part::Zeros => "zeros",
            Part::Matrix => "matrix",
            Part::Rank => "rank",
        }
    }
}

impl Report {
    // The part's name as it is printed, also of a report without one.
    pub fn part_name(&self) -> &'static str
        ensures { result.now ≡ name_of_part self.now.part }
    {
        match self.part {
            Some(part) => part.name(),
            None => "none",
        }
    }
}

impl fmt::Display for Layer {
    fn fmt<W: fmt::Write>(&self, f: &mut fmt::Formatter<W>) -> fmt::Result {
        f.write_str(self.name())
    }
}

impl fmt::Display for Part {
    fn fmt<W: fmt::Write>(&self, f: &mut fmt::Formatter<W>) -> fmt::Result {
        f.write_str(self.name())
    }
}

// The four values as lines.
impl fmt::Display for Report {
    fn fmt<W: fmt::Write>(&self, f: &mut fmt::Formatter<W>) -> fmt::Result {
        writeln!(f, "answer={}", self.number)?;
        writeln!(f, "layer={}", self.layer)?;
        writeln!(f, "part={}", self.part_name())?;
        write!(f, "place={}", self.place)
    }
}
