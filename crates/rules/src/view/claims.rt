ghost use Rattle.std.specs.Prelude.{◌≡◌, ℕ, ◌<◌, true, ◌⊎◌, Decides};
ghost use Rattle.sets.specs.Members.{member};
ghost use Rattle.rules.specs.Rules.{Grants, Denies, Leads, seen};

use super::View;
use crate::claim::Claim;
use kinds::Kind;
use sets::Set;

impl<'m, K: Kind> View<'m, K> {
    // Of the rules met, those that grant the role at the minute and those that deny it.
    pub fn claim(&self, met: Set, role: u8, minute: u32) -> Claim
        ensures granting_exactly_the_met_rules_that_grant_or_lead { (i : ℕ) → Decides (member result.granting i) ((member met i ≡ true) × Grants (seen K.meaning self.now) role minute i) }
        ensures denying_exactly_the_met_rules_that_deny { (i : ℕ) → Decides (member result.denying i) ((member met i ≡ true) × Denies (seen K.meaning self.now) role i) }
    {
        // A loop over the rules with their index is the form set for this place: it gathers both sets in one pass.
        let sources = self.sources(role, minute);
        let mut granting = Set::new();
        let mut denying = Set::new();
        for (i, rule) in self.rules.iter().enumerate() {
            // Exact, as in `numbers_of`.
            let number = i as u8;
            if !met.contains(number) {
                continue;
            }
            if !rule.grants.is_disjoint(sources) {
                granting = granting.with(number);
            }
            if rule.denies.contains(role) {
                denying = denying.with(number);
            }
        }
        Claim { granting, denying }
    }

    // The role itself, and the first roles of the live entries that lead to it.
    fn sources(&self, role: u8, minute: u32) -> Set
        ensures members_are_the_role_and_what_leads_to_it { (from : ℕ) → Decides (member result from) ((from < 64) × ((from ≡ role) ⊎ Leads (seen K.meaning self.now) from role minute)) }
    {
        let mut sources = Set::new().with(role);
        for entry in self.entries {
            if entry.leads_to(role, minute) {
                sources = sources.with(entry.first);
            }
        }
        sources
    }
}
