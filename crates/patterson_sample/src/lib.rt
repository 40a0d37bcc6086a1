// What the decoding theorem asks for can be had: a code over the field of four elements, a vector's syndrome, and all that the
// decoder computes from it; and the theorem gives the vector back.
#![tactic(auto)]

ghost use Rattle.std.proofs.Math.Option.{some};
ghost use Rattle.algebra.specs.Poly.{eval};
ghost use Rattle.patterson.specs.Code.{Perfect, GoppaCode};
ghost use Rattle.patterson.specs.Decoder.{Prepared, Stopped};
ghost use Rattle.patterson.specs.Errors.{Decodes};
ghost use Rattle.patterson_sample.specs.Four.{four};
ghost use Rattle.patterson_sample.specs.Sample.{goppa, zeros, support, syndrome, both, one, itself, next};

pub fn sample_stands() -> u8
    ensures field { Perfect four }
    ensures code { GoppaCode four 2 (eval four goppa) zeros support }
    ensures prepared { Prepared four 2 (eval four goppa) (eval four syndrome) next zeros 0 1 one next one one itself }
    ensures stopped { Stopped four 2 (eval four syndrome) next zeros 0 1 one next one one itself one one }
    ensures decoded { Decodes four goppa 2 syndrome support (some both) }
{
    0
}
