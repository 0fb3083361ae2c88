ghost use Rattle.std.specs.Prelude.{ℕ, Decides, MatchOption};
ghost use Rattle.sets.specs.Members.{member};
ghost use Rattle.tables.specs.Settings.{MetBy, DeniedBy, ByRules, setting};
ghost use Rattle.tables.specs.Verdicts.{Decided, Lowest};

use super::Ruling;
use kinds::Kind;
use rules::{Objection, Policy};
use sets::Set;

impl<K: Kind, P: Policy> Ruling<'_, K, P> {
    // Whether a person who meets exactly these rules is entitled by rules to the role.
    pub fn allows(&self, met: Set, role: u8) -> bool
        ensures tells_whether_rules_entitle_whoever_meets_these { (person : ℕ) → ((i : ℕ) → Decides (member met i) (MetBy (setting K.meaning P.judge self.now) person i)) → Decides result (ByRules (setting K.meaning P.judge self.now) person role) }
    {
        self.view
            .claim(met, role, self.clock)
            .is_allowed(self.policy, self.senior)
    }

    // What rules and policy say of the person and the role.
    pub fn verdict(&self, person: u16, role: u8) -> Result<(), Objection>
        ensures entitled_exactly_when_the_policy_says_yes { Decided (setting K.meaning P.judge self.now) person role result }
    {
        self.claim(person, role).judged(self.policy, self.senior)
    }

    // The lowest of the denying rules that the person meets.
    pub fn first_denying(&self, person: u16, role: u8) -> Option<u8>
        ensures gives_the_lowest_denying_rule { MatchOption result ((i : ℕ) → DeniedBy (setting K.meaning P.judge self.now) person role i → ⊥) (Lowest (DeniedBy (setting K.meaning P.judge self.now) person role)) }
    {
        self.claim(person, role).denying.first()
    }
}
