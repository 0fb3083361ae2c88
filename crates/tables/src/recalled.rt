ghost use Rattle.tables.specs.Loans.{Lent};

use crate::keep::Keep;
use crate::loan::Loan;

// A recall: all loans stay but those of the role to the borrower, whoever lent it.
#[derive(Clone, Copy)]
pub struct Recalled {
    pub borrower: u16,
    pub role: u8,
}

impl Keep for Recalled {
    ghost passes = { λ x loan. Lent loan x.borrower x.role → ⊥ };

    fn keeps(&self, loan: Loan) -> bool {
        !loan.is_of(self.borrower, self.role)
    }
}
