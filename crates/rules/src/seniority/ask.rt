ghost use Rattle.std.specs.Prelude.{◌≡◌, ℕ};
ghost use Rattle.sets.specs.Members.{member};
ghost use Rattle.rules.specs.Ranks.{is_senior};

use super::Seniority;
use sets::Set;

impl Seniority {
    pub(crate) fn from_rows(rows: [Set; 64]) -> Seniority
        ensures keeps_the_rows { result.rows ≡ rows }
    {
        Seniority { rows }
    }

    // The rules to which rule i is senior.
    pub fn juniors(&self, i: u8) -> Set
        ensures members_are_the_juniors { (j : ℕ) → member result j ≡ is_senior self.now i j }
    {
        self.rows.get(usize::from(i)).copied().unwrap_or(Set::new())
    }
}
