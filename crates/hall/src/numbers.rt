ghost use Rattle.std.specs.Prelude.{Some};
ghost use Rattle.hall.specs.Shown.{numbers_text};

use sets::Set;
use std::fmt;

// A set as a list: its numbers with commas, `-` for none, `all` for all 64.
#[derive(Clone, Copy)]
pub struct Numbers(pub Set);

impl fmt::Display for Numbers {
    ghost output = { λ n. Some (numbers_text n.0) };

    fn fmt<W: fmt::Write>(&self, f: &mut fmt::Formatter<W>) -> fmt::Result {
        let set = self.0;
        if set.is_empty() {
            return f.write_str("-");
        }
        if Set::all().is_subset(set) {
            return f.write_str("all");
        }
        let mut members = set.members();
        if let Some(first) = members.next() {
            write!(f, "{first}")?;
            for i in members {
                write!(f, ",{i}")?;
            }
        }
        Ok(())
    }
}
