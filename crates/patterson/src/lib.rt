// Mathematics only: the decoding theorem of Goppa codes. The columns of the check matrix are the inverses of X + α modulo the
// Goppa polynomial g, for the points α of the support; a vector's syndrome is the sum of the columns at its ones. The theorem
// says that Patterson's decoder finds the one vector of weight t that has a given syndrome, or that there is none.
#![tactic(auto)]

ghost use Rattle.patterson.specs.Claims.{Over, ColumnValue, SyndromeValue, SolvesKeyEquation, AnySolution, OneVector, ZeroSyndrome, EuclidStart, EuclidStep, EuclidEnd, EuclidInverse, HasRestZeros, Invertible, SquareRootValue, KeyRoot, Bounds, Complete, Sound, Refuses, ByCoefficients, Decoding, OutOfBounds};

// The parts of the theorem, over every field of characteristic 2 with square roots whose elements are those of F.
pub fn decoder_stands<F>() -> u8
    ensures column { Over F ColumnValue }
    ensures syndrome { Over F SyndromeValue }
    ensures key { Over F SolvesKeyEquation }
    ensures located { Over F AnySolution }
    ensures once { Over F OneVector }
    ensures zero { Over F ZeroSyndrome }
    ensures start { Over F EuclidStart }
    ensures step { Over F EuclidStep }
    ensures divisor { Over F EuclidEnd }
    ensures inverse { Over F EuclidInverse }
    ensures rest { Over F HasRestZeros }
    ensures invertible { Over F Invertible }
    ensures root { Over F SquareRootValue }
    ensures begin { Over F KeyRoot }
    ensures bounds { Over F Bounds }
    ensures complete { Over F Complete }
    ensures sound { Over F Sound }
    ensures refused { Over F Refuses }
    ensures coefficients { Over F ByCoefficients }
    ensures decoding { Over F Decoding }
    ensures out { Over F OutOfBounds }
{
    0
}
