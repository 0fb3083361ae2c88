ghost use Rattle.std.specs.Prelude.{ℕ, Decides};
ghost use Rattle.sets.specs.Members.{member};
ghost use Rattle.tables.specs.Settings.{MetBy, GrantedBy, DeniedBy, ByRules, MayStand, setting};

use super::Ruling;
use crate::keep::Keep;
use crate::loan::Loan;
use kinds::Kind;
use rules::{Claim, Policy};
use sets::Set;

impl<K: Kind, P: Policy> Ruling<'_, K, P> {
    // The rules that the person meets; none where there is no such person.
    pub fn met(&self, person: u16) -> Set
        ensures members_are_exactly_the_rules_met { (i : ℕ) → Decides (member result i) (MetBy (setting K.meaning P.judge self.now) person i) }
    {
        // By cases: `map_or` would name the answer for nobody first.
        match self.register.get(usize::from(person)) {
            Some(value) => self.view.met_by(*value),
            None => Set::new(),
        }
    }

    // The rules that the person meets and that grant or deny the role. The two come as the words of a call that they are: a
    // struct of them would be taken apart where it is made.
    pub fn claim(&self, person: u16, role: u8) -> Claim
        ensures granting_exactly_the_met_rules_that_grant_or_lead { (i : ℕ) → Decides (member result.granting i) (GrantedBy (setting K.meaning P.judge self.now) person role i) }
        ensures denying_exactly_the_met_rules_that_deny { (i : ℕ) → Decides (member result.denying i) (DeniedBy (setting K.meaning P.judge self.now) person role i) }
    {
        self.view.claim(self.met(person), role, self.clock)
    }

    // Whether the person is entitled by rules to the role.
    pub fn entitles(&self, person: u16, role: u8) -> bool
        ensures tells_whether_rules_entitle { Decides result (ByRules (setting K.meaning P.judge self.now) person role) }
    {
        self.allows(self.met(person), role)
    }

    // Whether the loan may stand: it is not due, its lender is entitled by rules, and its borrower meets no denying rule.
    pub fn lets_stand(&self, loan: Loan) -> bool
        ensures tells_whether_the_loan_may_stand { Decides result (MayStand (setting K.meaning P.judge self.now) loan) }
    {
        u64::from(self.clock) < loan.due
            && self.claim(loan.borrower, loan.role).denying.is_empty()
            && self.entitles(loan.lender, loan.role)
    }
}

impl<K: Kind, P: Policy> Keep for Ruling<'_, K, P> {
    ghost passes = { λ ruling loan. MayStand (setting K.Kind.meaning P.Policy.judge ruling) loan };

    fn keeps(&self, loan: Loan) -> bool {
        self.lets_stand(loan)
    }
}
