use sets::Set;

mod judged;

// The rules met that grant a role, and those that deny it.
#[derive(Clone, Copy)]
pub struct Claim {
    pub granting: Set,
    pub denying: Set,
}

// Why rules and policy do not entitle a record to a role.
#[derive(Clone, Copy)]
pub enum Objection {
    NothingGrants,
    Denied { rule: u8 },
}
