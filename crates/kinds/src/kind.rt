ghost use Rattle.std.specs.Prelude.{◌≡◌, Decides};
ghost use Rattle.kinds.specs.Kinds.{Meaning, Implied, EveryLawfulTestIsMet, meets};

// An attribute kind, with its own type of value and its own type of test. A kind is a type: there is nothing to make.
pub trait Kind {
    type Value: Copy;

    type Test: Copy;

    ghost meaning: { Meaning Self.Value Self.Test };

    fn lawful_value(v: Self::Value) -> bool
        ensures tells_whether_the_value_is_lawful { result ≡ meaning.lawful_value v };

    fn lawful_test(t: Self::Test) -> bool
        ensures tells_whether_the_test_is_lawful { result ≡ meaning.lawful_test t };

    fn meets(v: Self::Value, t: Self::Test) -> bool
        ensures meets_exactly_when_lawful_and_meant { result ≡ meets meaning v t };

    fn implies(s: Self::Test, t: Self::Test) -> bool
        ensures implies_exactly_when_every_lawful_value_follows { Decides result (Implied meaning s t) };

    ghost every_lawful_test_is_met: { EveryLawfulTestIsMet meaning };
}
