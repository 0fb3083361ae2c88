// A loan of a role. It stands below the minute `due`, which may lie past the last minute of the clock.
#[derive(Clone, Copy, Default, PartialEq, Eq)]
pub struct Loan {
    pub lender: u16,
    pub borrower: u16,
    pub role: u8,
    pub due: u64,
}
