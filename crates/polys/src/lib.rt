// Polynomials over a binary field in lent memory: a list of coefficients, each as the place of an
// element, that of X^0 first. A number that is no place counts as zero.
#![tactic(auto)]

pub mod arithmetic;
pub mod euclid;
pub mod values;
