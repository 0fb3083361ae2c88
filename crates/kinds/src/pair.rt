ghost use Rattle.kinds.specs.Shipped.{pair};
ghost use Rattle.kinds.specs.Readings.{read_pair};
ghost use Rattle.kinds.specs.KindLaws.{pair_met};
ghost use Rattle.kinds.specs.ReadingLaws.{pair_uses};

use crate::file_kind::{FileKind, TestFault};
use crate::kind::Kind;

// Two kinds as one: a value, a test and an answer are those of both halves.
pub struct Pair<A, B> {
    first: A,
    second: B,
}

impl<A: Kind, B: Kind> Kind for Pair<A, B> {
    type Value = (A::Value, B::Value);

    type Test = (A::Test, B::Test);

    ghost meaning = { pair A.Kind.meaning B.Kind.meaning };

    ghost every_lawful_test_is_met = { pair_met A.Kind.meaning B.Kind.meaning A.Kind.every_lawful_test_is_met B.Kind.every_lawful_test_is_met };

    fn lawful_value(v: (A::Value, B::Value)) -> bool {
        A::lawful_value(v.0) && B::lawful_value(v.1)
    }

    fn lawful_test(t: (A::Test, B::Test)) -> bool {
        A::lawful_test(t.0) && B::lawful_test(t.1)
    }

    fn meets(v: (A::Value, B::Value), t: (A::Test, B::Test)) -> bool {
        A::meets(v.0, t.0) && B::meets(v.1, t.1)
    }

    fn implies(s: (A::Test, B::Test), t: (A::Test, B::Test)) -> bool {
        A::implies(s.0, t.0) && B::implies(s.1, t.1)
    }
}

impl<A: FileKind, B: FileKind> FileKind for Pair<A, B> {
    ghost reads = { read_pair A.FileKind.reads B.FileKind.reads };

    ghost uses_no_more_bytes_than_there_are = { pair_uses A.FileKind.reads B.FileKind.reads A.FileKind.uses_no_more_bytes_than_there_are B.FileKind.uses_no_more_bytes_than_there_are };

    fn read_test(bytes: &[u8]) -> Result<((A::Test, B::Test), usize), TestFault> {
        let (first, used) = A::read_test(bytes)?;
        let (second, more) = B::read_test(&bytes[used..])?;
        Ok(((first, second), used + more))
    }
}
