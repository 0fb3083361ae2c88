// What a grader keeps between calls, and how it rules on it.
#![tactic(auto)]

mod keep;
mod loan;
mod loans;
mod loans_full;
mod panels;
mod recalled;
mod ruling;
mod seat;

pub use keep::Keep;
pub use loan::Loan;
pub use loans::Loans;
pub use loans_full::LoansFull;
pub use panels::Panels;
pub use recalled::Recalled;
pub use ruling::Ruling;
pub use seat::Seat;
