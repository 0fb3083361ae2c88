ghost use Rattle.std.specs.Prelude.{◌≡◌, MatchResult, ◌≢◌, Some};
ghost use Rattle.rules.specs.Verdicts.{code, judge_of, policy_name};
ghost use Rattle.rules.specs.declared.shipped.Shipped.{Shipped};
ghost use Rattle.rules.specs.declared.shipped.Shipped.TheVariants.{Permission, Denial, LocalDenial};
ghost use Rattle.rules.specs.PolicyLaws.{permission_no, denial_no, local_no, permission_yes, denial_yes, local_yes, permission_stays, denial_stays, local_stays};

use crate::denial::Denial;
use crate::local_denial::LocalDenial;
use crate::permission::Permission;
use crate::policy::Policy;
use crate::seniority::Seniority;
use sets::Set;
use std::fmt;

// The shipped policies, for a plant that chooses one at start-up.
#[derive(Clone, Copy, Debug, PartialEq, Eq)]
pub enum Shipped {
    Permission,
    Denial,
    LocalDenial,
}

// A code that no shipped policy has.
#[derive(Clone, Copy, Debug, PartialEq, Eq)]
pub struct UnknownCode(pub u16);

impl Shipped {
    // Its code in a rulebook file. A method, since its name says which number is meant.
    pub fn code(self) -> u16
        ensures code_of_the_policy { result ≡ code self }
    {
        match self {
            Shipped::Permission => 1,
            Shipped::Denial => 2,
            Shipped::LocalDenial => 3,
        }
    }
}

// The policy with this code in a rulebook file.
impl TryFrom<u16> for Shipped {
    type Error = UnknownCode;

    ghost try_from_gives = { λ number r. MatchResult r (λ p. code p ≡ number) (λ e. (e.0 ≡ number) × ((p : Shipped) → code p ≢ number)) };

    fn try_from(number: u16) -> Result<Shipped, UnknownCode> {
        match number {
            1 => Ok(Shipped::Permission),
            2 => Ok(Shipped::Denial),
            3 => Ok(Shipped::LocalDenial),
            _ => Err(UnknownCode(number)),
        }
    }
}

impl fmt::Display for Shipped {
    ghost output = { λ p. Some (policy_name p) };

    fn fmt<W: fmt::Write>(&self, f: &mut fmt::Formatter<W>) -> fmt::Result {
        f.write_str(match self {
            Shipped::Permission => "permission",
            Shipped::Denial => "denial",
            Shipped::LocalDenial => "local denial",
        })
    }
}

impl Policy for Shipped {
    ghost judge = { judge_of };

    ghost nothing_granting_is_no = { elim [ Permission ↦ permission_no | Denial ↦ denial_no | LocalDenial ↦ local_no ] };

    ghost granting_and_nothing_denying_is_yes = { elim [ Permission ↦ permission_yes | Denial ↦ denial_yes | LocalDenial ↦ local_yes ] };

    ghost yes_stays_when_granting_gains_or_denying_loses = { elim [
      | Permission ↦ permission_stays
      | Denial ↦ denial_stays
      | LocalDenial ↦ local_stays
    ] };

    fn says(&self, granting: Set, denying: Set, senior: &Seniority) -> bool {
        match *self {
            Shipped::Permission => Permission.says(granting, denying, senior),
            Shipped::Denial => Denial.says(granting, denying, senior),
            Shipped::LocalDenial => LocalDenial.says(granting, denying, senior),
        }
    }
}
