ghost use Rattle.std.specs.Prelude.{◌≡◌};
ghost use Rattle.rules.specs.Policies.{Judge, NothingGrantingIsNo, GrantingAndNothingDenyingIsYes, YesStaysWhenGrantingGainsOrDenyingLoses};

use crate::seniority::Seniority;
use sets::Set;

// A conflict policy. For one role it is told the granting rules met, the denying rules met and the seniority among rules:
// the three that a `Judge` takes, so that a policy reads as its meaning does, and not a `Claim` to be taken apart.
pub trait Policy {
    ghost judge: { Self → Judge };

    fn says(&self, granting: Set, denying: Set, senior: &Seniority) -> bool
        ensures says_what_it_means { result ≡ judge self.now granting denying senior.now };

    ghost nothing_granting_is_no: { (p : Self) → NothingGrantingIsNo (judge p) };

    ghost granting_and_nothing_denying_is_yes: { (p : Self) → GrantingAndNothingDenyingIsYes (judge p) };

    ghost yes_stays_when_granting_gains_or_denying_loses: { (p : Self) → YesStaysWhenGrantingGainsOrDenyingLoses (judge p) };
}
