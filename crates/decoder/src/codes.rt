// What decoding asks of a code, of the codes that a shuffled list of all places gives.
ghost use Rattle.decoder.specs.Codes.{CodeOfList};

use fields::field::Field;

// The support and the zeros of a code's list are a code of the monic polynomial with these zeros.
pub fn code_stands<F: Field>() -> u8
    ensures { CodeOfList F.Field.ops F.Field.places }
{
    0
}
