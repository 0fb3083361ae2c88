ghost use Rattle.std.specs.Prelude.{◌≡◌, ◌-◌};
ghost use Rattle.sets.specs.Readout.{ReadOut};
ghost use Rattle.std.specs.Iterator.{at_most};

use super::Set;

// The members of a set in rising order.
#[derive(Drop)]
pub struct Members {
    set: Set,
    from: u8,
}

impl Set {
    pub fn members(self) -> Members
        ensures whole_set { result.set ≡ self }
        ensures from_the_lowest { result.from ≡ 0 }
    {
        Members { set: self, from: 0 }
    }
}

impl Iterator for Members {
    type Item = u8;

    ghost next_gives = { ReadOut };

    ghost remaining = { λ s. at_most (64 - s.from) };

    fn next(&mut self) -> Option<u8> {
        let found = self.set.first_from(self.from);
        if let Some(i) = found {
            self.from = i + 1;
        }
        found
    }
}
