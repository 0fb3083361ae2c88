// Thirty-two loans stand, and no more can.
#[derive(Clone, Copy, PartialEq, Eq)]
pub struct LoansFull;
