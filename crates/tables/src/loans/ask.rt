ghost use Rattle.std.specs.Prelude.{◌≡◌, length, Decides, nat_le};
ghost use Rattle.tables.specs.Loans.{standing, Lent, OnLoan};

use super::Loans;
use crate::loan::Loan;

impl Loan {
    // Whether it is of that role to that person.
    pub fn is_of(self, person: u16, role: u8) -> bool
        ensures tells_whether_it_is_lent { Decides result (Lent self person role) }
    {
        self.borrower == person && self.role == role
    }
}

impl Loans {
    // The loans that stand.
    pub fn standing(&self) -> &[Loan]
        ensures those_that_stand { result.now ≡ standing self.now }
    {
        &self.items[..self.count]
    }

    // Whether thirty-two stand.
    pub fn is_full(&self) -> bool
        ensures tells_whether_32_stand { result ≡ nat_le 32 (length (standing self.now)) }
    {
        self.count >= 32
    }

    // Whether a loan of the role to the person stands.
    pub fn has(&self, person: u16, role: u8) -> bool
        ensures tells_whether_such_a_loan_stands { Decides result (OnLoan (standing self.now) person role) }
    {
        // A `for`: by `any`, or `find`, a search of 32 loans takes more than twice as long.
        for loan in self.standing() {
            if loan.is_of(person, role) {
                return true;
            }
        }
        false
    }
}
