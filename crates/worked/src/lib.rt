// The worked examples, as one theorem on one contract.
#![tactic(auto)]

ghost use Rattle.std.specs.Prelude.{◌≡◌};
ghost use Rattle.worked.specs.Examples.{Examples};
ghost use Rattle.worked.specs.Sheet.{FieldExamples};

// The number of the worked examples, all of which stand.
pub fn examples_stand() -> usize
    ensures number { result ≡ 5 }
    ensures stand { Examples }
{
    5
}

// How many lines the worked examples have.
fn lines() -> usize
    ensures { result ≡ 9 }
{
    9
}

// The number of lines of all worked examples, all of which stand.
pub fn sheet_stands() -> usize
    ensures number { result ≡ 9 }
    ensures earlier { Examples }
    ensures fields { FieldExamples }
{
    lines()
}
