// The field of 64 elements: polynomials in z over two elements, modulo z^6 + z + 1.
#![tactic(auto)]

pub mod element;
pub mod tables;
