ghost use Rattle.std.specs.Prelude.{◌≡◌, true, is_some};

use crate::draft::Draft;
use rules::Shipped;

mod admit;

// How far a rulebook is read: the policy of its header once that came, whether the end came, and the draft that its rules and
// entries make.
#[derive(Drop)]
pub(crate) struct Scan {
    policy: Option<Shipped>,
    pub(crate) ended: bool,
    draft: Draft,
    ghost headed: { ended ≡ true → is_some policy ≡ true },
}
