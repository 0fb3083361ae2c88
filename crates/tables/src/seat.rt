use sets::Set;

// A person at a panel, and the roles that are active there.
#[derive(Clone, Copy, PartialEq, Eq)]
pub struct Seat {
    pub person: u16,
    pub active: Set,
}
