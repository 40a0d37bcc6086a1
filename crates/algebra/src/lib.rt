// Mathematics only: commutative fields of characteristic 2, polynomials over them, and a solver of
// identities in their rings. It has no code: the crates that run build on its definitions and lemmas.
#![tactic(auto)]
