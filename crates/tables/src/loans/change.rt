ghost use Rattle.std.specs.Prelude.{◌≡◌, [], ◌∷◌, ◌++◌, length, if◌then◌else◌, nat_lt, is_ok};
ghost use Rattle.tables.specs.Loans.{standing, Filtered};

use super::Loans;
use crate::keep::Keep;
use crate::loan::Loan;
use crate::loans_full::LoansFull;

impl Loans {
    // No loan stands.
    pub fn new() -> Loans
        ensures none_stands { standing result ≡ [] }
    {
        Loans {
            items: [Loan::default(); 32],
            count: 0,
        }
    }

    // One loan more; refused, and nothing changed, where thirty-two stand.
    pub fn add(&mut self, loan: Loan) -> Result<(), LoansFull>
        ensures accepted_exactly_where_fewer_than_32_stand { is_ok result ≡ nat_lt (length (standing self.old)) 32 }
        ensures added_at_the_end_where_accepted { standing self.new ≡ (if is_ok result then standing self.old ++ loan ∷ [] else standing self.old) }
    {
        if self.is_full() {
            return Err(LoansFull);
        }
        self.items[self.count] = loan;
        self.count += 1;
        Ok(())
    }

    // Keeps the loans that pass the test, in their order, and ends the others for good.
    pub fn retain<T: Keep>(&mut self, test: &T)
        ensures keeps_exactly_the_loans_that_pass { Filtered (T.passes test.now) (standing self.old) (standing self.new) }
    {
        // By index, in place: over a copy of the table, of which 32 places are copied however few loans stand, a sweep of two
        // loans or fewer takes two to three times as long.
        let mut kept = 0;
        for i in 0..self.count {
            let loan = self.items[i];
            if test.keeps(loan) {
                self.items[kept] = loan;
                kept += 1;
            }
        }
        self.count = kept;
    }
}
