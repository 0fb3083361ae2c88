ghost use Rattle.rules.specs.Policies.{denial};
ghost use Rattle.rules.specs.PolicyLaws.{denial_no, denial_yes, denial_stays};

use crate::policy::Policy;
use crate::seniority::Seniority;
use sets::Set;

// One denying rule is enough to refuse.
#[derive(Clone, Copy)]
pub struct Denial;

impl Policy for Denial {
    ghost judge = { λ _. denial };

    ghost nothing_granting_is_no = { λ _. denial_no };

    ghost granting_and_nothing_denying_is_yes = { λ _. denial_yes };

    ghost yes_stays_when_granting_gains_or_denying_loses = { λ _. denial_stays };

    fn says(&self, granting: Set, denying: Set, _senior: &Seniority) -> bool {
        !granting.is_empty() && denying.is_empty()
    }
}
