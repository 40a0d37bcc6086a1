// What the programs share: the memory that they lend to calls, the customer's seal, and how they print
// bytes, what a seal made, and why there is nothing to print of a call.
#![tactic(auto)]

pub mod failures;
pub mod memory;
pub mod sealed;
pub mod shown;
