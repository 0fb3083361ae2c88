// Rules, which are senior to which, conflict policies, and who is entitled by rules.
#![tactic(auto)]

mod claim;
mod denial;
mod entry;
mod local_denial;
mod permission;
mod policy;
mod rule;
mod seniority;
mod shipped;
mod view;

pub use claim::{Claim, Objection};
pub use denial::Denial;
pub use entry::Entry;
pub use local_denial::LocalDenial;
pub use permission::Permission;
pub use policy::Policy;
pub use rule::Rule;
pub use seniority::Seniority;
pub use shipped::{Shipped, UnknownCode};
pub use view::View;
