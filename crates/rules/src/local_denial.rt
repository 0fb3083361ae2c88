ghost use Rattle.std.specs.Prelude.{◌≡◌, ℕ, true, false, Decides};
ghost use Rattle.sets.specs.Members.{member};
ghost use Rattle.rules.specs.Ranks.{is_senior};
ghost use Rattle.rules.specs.Policies.{local_denial};
ghost use Rattle.rules.specs.PolicyLaws.{local_no, local_yes, local_stays};

use crate::policy::Policy;
use crate::seniority::Seniority;
use sets::Set;

// A denying rule refuses only the granting rules with which it is comparable.
#[derive(Clone, Copy)]
pub struct LocalDenial;

impl Policy for LocalDenial {
    ghost judge = { λ _. local_denial };

    ghost nothing_granting_is_no = { λ _. local_no };

    ghost granting_and_nothing_denying_is_yes = { λ _. local_yes };

    ghost yes_stays_when_granting_gains_or_denying_loses = { λ _. local_stays };

    fn says(&self, granting: Set, denying: Set, senior: &Seniority) -> bool {
        let below = below_some(denying, senior);
        // A `for`: of `any` over an iterator of our own the proof did not close.
        for i in granting.members() {
            if !below.contains(i) && above_none(i, denying, senior) {
                return true;
            }
        }
        false
    }
}

// The rules to which some denying rule is senior.
fn below_some(denying: Set, table: &Seniority) -> Set
    ensures members_are_the_rules_junior_to_a_denying_one { (i : ℕ) → Decides (member result i) ((j : ℕ) × (member denying j ≡ true) × (is_senior table.now j i ≡ true)) }
{
    let mut below = Set::new();
    for j in denying.members() {
        below = below.union(table.juniors(j));
    }
    below
}

// Whether rule i is senior to no denying rule.
fn above_none(i: u8, denying: Set, table: &Seniority) -> bool
    ensures tells_whether_it_is_senior_to_no_denying_rule { Decides result ((j : ℕ) → member denying j ≡ true → is_senior table.now i j ≡ false) }
{
    denying.is_disjoint(table.juniors(i))
}
