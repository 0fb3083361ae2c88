use rules::Seniority;
use tables::{Loans, Panels};

mod checks;
mod lending;
mod lent;
mod making;
mod perform;
mod questions;
mod recalling;
mod roles;
mod seating;
mod settling;

pub use making::Ready;

// What a grader holds between calls. Rules, entries and register are lent to each call that uses them, as parameters of
// their own: that is the form set for the calls. Within a call they travel as a `Ruling`. Each call says by itself that
// policy and table stay: that is a word on two graders, before and after, and no fact about one.
#[derive(Drop)]
pub struct Grader<P> {
    policy: P,
    senior: Seniority,
    clock: u32,
    panels: Panels,
    loans: Loans,
}
