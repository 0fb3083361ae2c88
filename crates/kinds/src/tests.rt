// A kind that is not shipped goes wherever a shipped one does.
ghost use Rattle.std.specs.Prelude.{nat_le, nat_lt};
ghost use Rattle.std.proofs.Common.{rules};

use crate::kind::Kind;
use crate::level::Level;
use crate::pair::Pair;

// Years in service; a test is met by at most so many.
struct AtMost;

impl Kind for AtMost {
    type Value = u8;

    type Test = u8;

    ghost meaning = { record { lawful_value = λ v. nat_lt v 256; lawful_test = λ t. nat_lt t 256; meant = λ v t. nat_le v t } };

    ghost every_lawful_test_is_met = { Prim.search rules };

    fn lawful_value(_v: u8) -> bool {
        true
    }

    fn lawful_test(_t: u8) -> bool {
        true
    }

    fn meets(v: u8, t: u8) -> bool {
        v <= t
    }

    fn implies(s: u8, t: u8) -> bool {
        s <= t
    }
}

#[test]
fn a_foreign_kind_pairs_with_a_shipped_one(rt: HostRuntime) {
    assert!(rt; Pair::<Level, AtMost>::meets((3, 5), (3, 5)));
    assert!(rt; !Pair::<Level, AtMost>::meets((3, 6), (3, 5)));
    assert!(rt; !Pair::<Level, AtMost>::meets((2, 5), (3, 5)));
    assert!(rt; Pair::<Level, AtMost>::implies((4, 4), (3, 5)));
    assert!(rt; !Pair::<Level, AtMost>::implies((4, 6), (3, 5)));
}
