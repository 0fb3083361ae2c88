// Sets of numbers 0 to 63, for roles, rules, certificates and sites alike.
#![tactic(auto)]

mod set;

pub use set::{Members, Set};
