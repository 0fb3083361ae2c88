// Attribute kinds: what a record may hold, and which tests rules may put to it.
#![tactic(auto)]

mod certificates;
mod file_kind;
mod kind;
mod level;
mod pair;
mod site;
#[cfg(test)]
mod tests;

pub use certificates::Certificates;
pub use file_kind::{FileKind, TestFault};
pub use kind::Kind;
pub use level::Level;
pub use pair::Pair;
pub use site::Site;
