use crate::sealed::Sealed;
use rules::Shipped;

// A rulebook that was read from a file, and the policy that the file names.
#[derive(Drop)]
pub struct Opened {
    pub book: Sealed,
    pub policy: Shipped,
}
