ghost use Rattle.kinds.specs.Shipped.{site};
ghost use Rattle.kinds.specs.Readings.{read_set};
ghost use Rattle.kinds.specs.KindLaws.{site_met};
ghost use Rattle.std.proofs.Common.{rules};

use crate::file_kind::{FileKind, TestFault, read_set};
use crate::kind::Kind;
use sets::Set;

// A site from 0 to 63. A test is a set of sites that is not empty, met by its members.
pub struct Site;

impl Kind for Site {
    type Value = u8;

    type Test = Set;

    ghost meaning = { site };

    ghost every_lawful_test_is_met = { site_met };

    fn lawful_value(v: u8) -> bool {
        v < 64
    }

    fn lawful_test(t: Set) -> bool {
        !t.is_empty()
    }

    fn meets(v: u8, t: Set) -> bool {
        t.contains(v)
    }

    fn implies(s: Set, t: Set) -> bool {
        !s.is_empty() && s.is_subset(t)
    }
}

impl FileKind for Site {
    ghost reads = { read_set };

    ghost uses_no_more_bytes_than_there_are = { Prim.search rules };

    fn read_test(bytes: &[u8]) -> Result<(Set, usize), TestFault> {
        read_set(bytes)
    }
}
