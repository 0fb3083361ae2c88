ghost use Rattle.std.specs.Prelude.{◌≡◌, ℕ, List};
ghost use Rattle.kinds.specs.Readings.{Reading, UsesNoMoreThanThereAre, read_set};

use crate::kind::Kind;
use sets::Set;

// Why no test could be read.
#[derive(Clone, Copy)]
pub enum TestFault {
    TooShort,
}

// A kind whose tests stand in rulebook files.
pub trait FileKind: Kind {
    ghost reads: { List ℕ → Reading Self.Test };

    // The test at the front of the bytes, and how many of them it takes.
    fn read_test(bytes: &[u8]) -> Result<(Self::Test, usize), TestFault>
        ensures the_bytes_alone_fix_the_answer { result ≡ reads bytes.now };

    ghost uses_no_more_bytes_than_there_are: { UsesNoMoreThanThereAre reads };
}

// A set at the front of the bytes: certificates and sites are written alike.
pub(crate) fn read_set(bytes: &[u8]) -> Result<(Set, usize), TestFault>
    ensures the_first_8_bytes_as_a_set { result ≡ read_set bytes.now }
{
    let first = bytes.first_chunk::<8>().ok_or(TestFault::TooShort)?;
    Ok((Set::from_le_bytes(*first), 8))
}
