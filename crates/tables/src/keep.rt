ghost use Rattle.std.specs.Prelude.{Decides};
ghost use Rattle.tables.specs.declared.loan.Loan.{Loan as AnyLoan};

use crate::loan::Loan;

// Which loans stay. A trait, since a closure would put a `requires` on `retain`: that it may be called.
pub trait Keep {
    ghost passes: { Self → AnyLoan → Type 0 };

    fn keeps(&self, loan: Loan) -> bool
        ensures tells_whether_it_passes { Decides result (passes self.now loan) };
}
