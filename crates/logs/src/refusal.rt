ghost use Rattle.std.specs.Prelude.{◌≡◌};
ghost use Rattle.logs.specs.Refusals.{number, objected};
ghost use Rattle.logs.specs.declared.refusal.Refusal.TheVariants.{LoansFull};

use rules::Objection;
use tables::LoansFull;

// Why a making, a call or a question is refused.
#[derive(Clone, Copy, PartialEq, Eq)]
pub enum Refusal {
    TooManyPersons,
    StartOutOfBounds,
    UnlawfulRegister,
    NoSuchPanel,
    PanelOpen,
    PanelClosed,
    NoSuchPerson,
    NoSuchRole,
    UnlawfulRecord,
    BorrowerIsLender,
    MinutesOutOfBounds,
    MinuteOutOfBounds,
    AlreadyActive,
    NotActive,
    NothingGrants,
    RuleDenies { rule: u8 },
    NotEntitledByRules,
    AlreadyLent,
    NoSuchLoan,
    BorrowerDenied { rule: u8 },
    LoansFull,
}

impl Refusal {
    pub fn number(self) -> u8
        ensures the_number_of_the_check { result ≡ number self }
    {
        match self {
            Refusal::TooManyPersons => 10,
            Refusal::StartOutOfBounds => 11,
            Refusal::UnlawfulRegister => 12,
            Refusal::NoSuchPanel => 20,
            Refusal::PanelOpen => 21,
            Refusal::PanelClosed => 22,
            Refusal::NoSuchPerson => 30,
            Refusal::NoSuchRole => 31,
            Refusal::UnlawfulRecord => 32,
            Refusal::BorrowerIsLender => 33,
            Refusal::MinutesOutOfBounds => 34,
            Refusal::MinuteOutOfBounds => 40,
            Refusal::AlreadyActive => 50,
            Refusal::NotActive => 51,
            Refusal::NothingGrants => 60,
            Refusal::RuleDenies { .. } => 61,
            Refusal::NotEntitledByRules => 62,
            Refusal::AlreadyLent => 70,
            Refusal::NoSuchLoan => 71,
            Refusal::BorrowerDenied { .. } => 72,
            Refusal::LoansFull => 73,
        }
    }
}

// A take that rests on rules alone.
impl From<Objection> for Refusal {
    ghost from_gives = { λ objection r. r ≡ objected objection };

    fn from(objection: Objection) -> Refusal {
        match objection {
            Objection::NothingGrants => Refusal::NothingGrants,
            Objection::Denied { rule } => Refusal::RuleDenies { rule },
        }
    }
}

impl From<LoansFull> for Refusal {
    ghost from_gives = { λ _ r. r ≡ LoansFull };

    fn from(_: LoansFull) -> Refusal {
        Self::LoansFull
    }
}
