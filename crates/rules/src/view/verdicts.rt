ghost use Rattle.std.specs.Prelude.{◌≡◌, ◌↔◌, Ok};
ghost use Rattle.rules.specs.Policies.{permission, denial, local_denial};
ghost use Rattle.rules.specs.Rules.{Permitted, PermittedAndNotDenied, PermittedAndNotDeniedLocally, seen};
ghost use Rattle.rules.specs.Verdicts.{Ruled};

use super::View;
use crate::claim::Objection;
use crate::policy::Policy;
use kinds::Kind;

impl<'m, K: Kind> View<'m, K> {
    // Whether rules and policy entitle the record to the role at the minute.
    pub fn verdict<P: Policy>(
        &self,
        policy: &P,
        value: K::Value,
        role: u8,
        minute: u32,
    ) -> Result<(), Objection>
        ensures entitled_exactly_when_the_policy_says_yes_to_the_rules_met { Ruled (seen K.meaning self.now) (P.judge policy.now) value role minute result }
        ensures permission_needs_one_granting_rule { P.judge policy.now ≡ permission → (result ≡ Ok tt) ↔ Permitted (seen K.meaning self.now) value role minute }
        ensures denial_needs_one_granting_and_no_denying_rule { P.judge policy.now ≡ denial → (result ≡ Ok tt) ↔ PermittedAndNotDenied (seen K.meaning self.now) value role minute }
        ensures local_denial_needs_one_granting_rule_comparable_with_no_denying_rule { P.judge policy.now ≡ local_denial → (result ≡ Ok tt) ↔ PermittedAndNotDeniedLocally (seen K.meaning self.now) value role minute }
    {
        let senior = self.seniority();
        self.claim(self.met_by(value), role, minute)
            .judged(policy, &senior)
    }
}
