ghost use Rattle.std.specs.Prelude.{◌≡◌};
ghost use Rattle.book.specs.Contents.{filler_content, header_content, rule_content, entry_content, end_content, content, SetSplit};

use crate::check::{checked_entry, checked_rule};
use crate::faults::RecordFault;
use crate::frames::Part;
use crate::record_kind::RecordKind;
use kinds::FileKind;
use rules::{Entry, Rule};
use sets::Set;

// What a header says, in the file's numbers: whether they are known is asked only of a header that comes first.
#[derive(Clone, Copy)]
pub(crate) struct Header {
    pub edition: u16,
    pub policy: u16,
}

// What a record says.
#[derive(Clone, Copy)]
pub(crate) enum Content<T> {
    Filler,
    Heading(Header),
    NewRule(Rule<T>),
    NewEntry(Entry),
    End,
}

fn read_filler(body: &[u8]) -> Result<(), RecordFault>
    ensures accepts_exactly_zeros { result ≡ filler_content body.now }
{
    if body.iter().all(|b| *b == 0) {
        Ok(())
    } else {
        Err(RecordFault::BadField)
    }
}

fn read_header(body: &[u8]) -> Result<Header, RecordFault>
    ensures edition_and_policy { result ≡ header_content body.now }
{
    let [e0, e1, p0, p1] = body else {
        return Err(RecordFault::WrongLength);
    };
    Ok(Header {
        edition: u16::from_le_bytes([*e0, *e1]),
        policy: u16::from_le_bytes([*p0, *p1]),
    })
}

fn read_entry(body: &[u8]) -> Result<Entry, RecordFault>
    ensures roles_start_and_duration { result ≡ entry_content body.now }
{
    let [first, second, s0, s1, s2, s3, d0, d1, d2, d3] = body else {
        return Err(RecordFault::WrongLength);
    };
    let start = u32::from_le_bytes([*s0, *s1, *s2, *s3]);
    let duration = u32::from_le_bytes([*d0, *d1, *d2, *d3]);
    checked_entry(Entry {
        first: *first,
        second: *second,
        start,
        duration,
    })
}

fn read_end(body: &[u8]) -> Result<(), RecordFault>
    ensures accepts_exactly_an_empty_body { result ≡ end_content body.now }
{
    match body {
        [] => Ok(()),
        _ => Err(RecordFault::WrongLength),
    }
}

// A set, and what follows it.
fn split_set<'a>(bytes: &'a [u8]) -> Result<(Set, &'a [u8]), RecordFault>
    ensures set_and_what_follows { SetSplit bytes.now result }
{
    let (first, rest) = bytes
        .split_first_chunk::<8>()
        .ok_or(RecordFault::WrongLength)?;
    Ok((Set::from_le_bytes(*first), rest))
}

fn read_rule<K: FileKind>(body: &[u8]) -> Result<Rule<K::Test>, RecordFault>
    ensures sets_and_a_test_that_ends_the_body { result ≡ rule_content K.FileKind.reads K.Kind.meaning.lawful_test body.now }
{
    let (grants, rest) = split_set(body)?;
    let (denies, rest) = split_set(rest)?;
    let (test, used) = K::read_test(rest)?;
    if used != rest.len() {
        return Err(RecordFault::WrongLength);
    }
    checked_rule::<K>(Rule {
        test,
        grants,
        denies,
    })
}

// What the record says, by its kind and body.
pub(crate) fn read_content<K: FileKind>(part: &Part) -> Result<Content<K::Test>, RecordFault>
    ensures what_the_record_says { result ≡ content K.FileKind.reads K.Kind.meaning.lawful_test part.now.kind part.now.body.now }
{
    match RecordKind::try_from(part.kind)? {
        RecordKind::Filler => {
            read_filler(part.body)?;
            Ok(Content::Filler)
        }
        RecordKind::Header => Ok(Content::Heading(read_header(part.body)?)),
        RecordKind::Rule => Ok(Content::NewRule(read_rule::<K>(part.body)?)),
        RecordKind::Entry => Ok(Content::NewEntry(read_entry(part.body)?)),
        RecordKind::End => {
            read_end(part.body)?;
            Ok(Content::End)
        }
    }
}
