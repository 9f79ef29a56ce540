// The fields of the machine record by their numbers: the largest value of each (specs/Largest.antt), and the commands that set
// them. Which number stores to which field is the crate `store`.
#![tactic(auto)]

pub mod largest; // largest.rt: the largest value of a field
pub mod set; // set.rt: the set and level commands
