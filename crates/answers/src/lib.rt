// What C is told: an answer of the crates below as a struct of numbers. The crates whose calls C links hand their answers
// through here.
#![tactic(auto)]

pub mod checks;
pub mod decoding;
pub mod trainings;
