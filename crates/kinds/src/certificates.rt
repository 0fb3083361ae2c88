ghost use Rattle.kinds.specs.Shipped.{certificates};
ghost use Rattle.kinds.specs.Readings.{read_set};
ghost use Rattle.kinds.specs.KindLaws.{certificates_met};
ghost use Rattle.std.proofs.Common.{rules};

use crate::file_kind::{FileKind, TestFault, read_set};
use crate::kind::Kind;
use sets::Set;

// Certificates out of 64. A test is a set of them, met by whoever holds them all.
pub struct Certificates;

impl Kind for Certificates {
    type Value = Set;

    type Test = Set;

    ghost meaning = { certificates };

    ghost every_lawful_test_is_met = { certificates_met };

    fn lawful_value(_v: Set) -> bool {
        true
    }

    fn lawful_test(_t: Set) -> bool {
        true
    }

    fn meets(v: Set, t: Set) -> bool {
        t.is_subset(v)
    }

    fn implies(s: Set, t: Set) -> bool {
        t.is_subset(s)
    }
}

impl FileKind for Certificates {
    ghost reads = { read_set };

    ghost uses_no_more_bytes_than_there_are = { Prim.search rules };

    fn read_test(bytes: &[u8]) -> Result<(Set, usize), TestFault> {
        read_set(bytes)
    }
}
