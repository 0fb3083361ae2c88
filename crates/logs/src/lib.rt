// The calls of a grader with the replies to them, and what every list of them means.
#![tactic(auto)]

mod call;
mod exchange;
mod refusal;
mod reply;
mod theorems;

pub use call::Call;
pub use exchange::Exchange;
pub use refusal::Refusal;
pub use reply::{Answer, Reply, Standing};
pub use theorems::{the_calls_fix_the_replies, the_numbers_of_the_checks_rise};
