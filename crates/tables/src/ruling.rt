use kinds::Kind;
use rules::{Policy, Seniority, View};

mod persons;
mod verdicts;

// All that entitlement by rules rests on, made at each call from what the grader holds and what it is lent. Clauses read it by
// `setting`, as they read a `View` by `seen`.
#[derive(Drop)]
pub struct Ruling<'a, K: Kind, P: Policy> {
    pub view: View<'a, K>,
    pub policy: &'a P,
    pub senior: &'a Seniority,
    pub register: &'a [K::Value],
    pub clock: u32,
}
