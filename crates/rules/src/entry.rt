ghost use Rattle.std.specs.Prelude.{◌≡◌, Decides};
ghost use Rattle.rules.specs.Entries.{Live};

// An assume entry: while it is live, a grant of the first role is a grant of the second too.
#[derive(Clone, Copy, Default)]
pub struct Entry {
    pub first: u8,
    pub second: u8,
    pub start: u32,
    pub duration: u32,
}

impl Entry {
    // Whether it leads to the role at the minute: from its start to one minute before start plus duration.
    pub(crate) fn leads_to(self, role: u8, minute: u32) -> bool
        ensures tells_whether_it_leads_there_and_is_live { Decides result ((self.second ≡ role) × Live self minute) }
    {
        self.second == role
            && self.start <= minute
            && u64::from(minute) < u64::from(self.start) + u64::from(self.duration)
    }
}
