use sets::Set;

// A rule: whoever meets the test is granted the one set of roles and denied the other.
#[derive(Clone, Copy)]
pub struct Rule<T> {
    pub test: T,
    pub grants: Set,
    pub denies: Set,
}
