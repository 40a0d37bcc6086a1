// The field of 8,192 elements: polynomials in z over two elements, modulo z^13 + z^7 + z^6 + z^5 + 1.
#![tactic(auto)]

pub mod element;
pub mod shifts;
