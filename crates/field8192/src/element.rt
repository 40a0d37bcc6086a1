use crate::shifts::Shifts;
use fields::element::Element;

// An element of the field of 8,192: the bits of its place are the coefficients of z^0 to z^12.
pub type E8192 = Element<Shifts>;
