ghost use Rattle.rules.specs.Policies.{permission};
ghost use Rattle.rules.specs.PolicyLaws.{permission_no, permission_yes, permission_stays};

use crate::policy::Policy;
use crate::seniority::Seniority;
use sets::Set;

// One granting rule is enough, whatever denies.
#[derive(Clone, Copy)]
pub struct Permission;

impl Policy for Permission {
    ghost judge = { λ _. permission };

    ghost nothing_granting_is_no = { λ _. permission_no };

    ghost granting_and_nothing_denying_is_yes = { λ _. permission_yes };

    ghost yes_stays_when_granting_gains_or_denying_loses = { λ _. permission_stays };

    fn says(&self, granting: Set, _denying: Set, _senior: &Seniority) -> bool {
        !granting.is_empty()
    }
}
