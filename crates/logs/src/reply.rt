use crate::refusal::Refusal;
use sets::Set;

// How a person stands to a role.
#[derive(Clone, Copy, PartialEq, Eq)]
pub enum Standing {
    ByRules,
    ByLoan,
    Neither,
}

// What a call that is not refused is answered: a change is done, a question is told.
#[derive(Clone, Copy, PartialEq, Eq)]
pub enum Answer {
    Done,
    Stands(Standing),
    Active(Set),
}

// The answer to a call, or why it is refused.
pub type Reply = Result<Answer, Refusal>;
