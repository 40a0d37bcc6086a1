// The decoder of Goppa codes on polynomials in lent memory: from a syndrome's polynomial to the locator of its errors.
#![tactic(auto)]

pub mod locate;
pub mod roots;
pub mod steps;
