ghost use Rattle.std.specs.Prelude.{◌≡◌};
ghost use Rattle.rules.specs.Verdicts.{Judged};

use super::{Claim, Objection};
use crate::policy::Policy;
use crate::seniority::Seniority;

impl Claim {
    // What the policy makes of the claim.
    pub fn judged<P: Policy>(self, policy: &P, senior: &Seniority) -> Result<(), Objection>
        ensures entitled_exactly_when_the_policy_says_yes { Judged (P.judge policy.now self.granting self.denying senior.now) self result }
    {
        if self.is_allowed(policy, senior) {
            return Ok(());
        }
        if self.granting.is_empty() {
            return Err(Objection::NothingGrants);
        }
        // A policy says yes where some rule grants and none denies, so here some rule denies.
        match self.denying.first() {
            Some(rule) => Err(Objection::Denied { rule }),
            None => unreachable(),
        }
    }

    // Whether the policy says yes to it.
    pub fn is_allowed<P: Policy>(self, policy: &P, senior: &Seniority) -> bool
        ensures what_the_policy_says { result ≡ P.judge policy.now self.granting self.denying senior.now }
    {
        policy.says(self.granting, self.denying, senior)
    }
}
