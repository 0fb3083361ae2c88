ghost use Rattle.std.specs.Prelude.{ℕ, ◌<◌, Decides};
ghost use Rattle.sets.specs.Members.{member};
ghost use Rattle.rules.specs.Rules.{Allowed, seen};

use super::View;
use crate::policy::Policy;
use kinds::Kind;
use sets::Set;

impl<'m, K: Kind> View<'m, K> {
    // All the roles to which rules and policy entitle the record at the minute.
    pub fn entitled_roles<P: Policy>(&self, policy: &P, value: K::Value, minute: u32) -> Set
        ensures members_are_exactly_the_roles_to_which_rules_entitle { (role : ℕ) → Decides (member result role) ((role < 64) × Allowed (seen K.meaning self.now) (P.judge policy.now) value role minute) }
    {
        let senior = self.seniority();
        let met = self.met_by(value);
        let mut roles = Set::new();
        for role in 0..64u8 {
            if self.claim(met, role, minute).is_allowed(policy, &senior) {
                roles = roles.with(role);
            }
        }
        roles
    }
}
