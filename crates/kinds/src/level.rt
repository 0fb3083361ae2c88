ghost use Rattle.kinds.specs.Shipped.{level};
ghost use Rattle.kinds.specs.Readings.{read_level};
ghost use Rattle.std.proofs.Common.{rules};

use crate::file_kind::{FileKind, TestFault};
use crate::kind::Kind;

// A level from 0 to 65,535. A test is a level, met by that one and all above it.
pub struct Level;

impl Kind for Level {
    type Value = u16;

    type Test = u16;

    ghost meaning = { level };

    ghost every_lawful_test_is_met = { Prim.search rules };

    fn lawful_value(_v: u16) -> bool {
        true
    }

    fn lawful_test(_t: u16) -> bool {
        true
    }

    fn meets(v: u16, t: u16) -> bool {
        t <= v
    }

    fn implies(s: u16, t: u16) -> bool {
        t <= s
    }
}

impl FileKind for Level {
    ghost reads = { read_level };

    ghost uses_no_more_bytes_than_there_are = { Prim.search rules };

    fn read_test(bytes: &[u8]) -> Result<(u16, usize), TestFault> {
        let first = bytes.first_chunk::<2>().ok_or(TestFault::TooShort)?;
        Ok((u16::from_le_bytes(*first), 2))
    }
}
