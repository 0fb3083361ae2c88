ghost use Rattle.std.specs.Prelude.{◌≡◌, true, false, length, is_ok, is_some, if◌then◌else◌, Some, None, Ok, Err};
ghost use Rattle.book.specs.Files.{good_header};
ghost use Rattle.book.specs.Progress.{accepts, after, answer};
ghost use Rattle.book.specs.Scans.{progress, policy_code, Room, Rest};
ghost use Rattle.book.specs.declared.faults.BookFault.TheVariants.{HeaderMisplaced, HeaderUnknown};

use super::Scan;
use crate::contents::{Content, Header};
use crate::draft::Draft;
use crate::faults::BookFault;
use crate::opened::Opened;
use rules::{Entry, Rule, Shipped};

const EDITION: u16 = 2;

impl Scan {
    pub(crate) fn new() -> Scan
        ensures no_policy { result.policy ≡ None }
        ensures not_ended { result.ended ≡ false }
        ensures no_rule { result.draft.rules.count ≡ 0 }
        ensures no_entry { result.draft.entries.count ≡ 0 }
    {
        Scan {
            policy: None,
            ended: false,
            draft: Draft::new(),
        }
    }

    // Takes what a record says into the rulebook, or says why it has no place there.
    pub(crate) fn admit<T: Copy>(
        &mut self,
        content: Content<T>,
        rules: &mut [Rule<T>],
        entries: &mut [Entry],
    ) -> Result<(), BookFault>
        requires { Room self.old rules.old entries.old }
        ensures answers_whether_the_content_has_a_place { result ≡ answer (accepts (length rules.old) (length entries.old) (progress self.old rules.old entries.old) content) }
        ensures takes_in_exactly_what_is_accepted { progress self.new rules.new entries.new ≡ after (progress self.old rules.old entries.old) (accepts (length rules.old) (length entries.old) (progress self.old rules.old entries.old) content) }
        ensures counts_stay_within_the_memory { Room self.new rules.new entries.new }
        ensures memory_after_the_counts_unchanged { Rest self.old self.new rules.old rules.new entries.old entries.new }
    {
        match content {
            Content::Heading(header) => self.begin(header),
            Content::Filler => self.has_begun(),
            Content::NewRule(rule) => {
                self.has_begun()?;
                self.draft.rules.store(rules, rule)
            }
            Content::NewEntry(entry) => {
                self.has_begun()?;
                self.draft.entries.store(entries, entry)
            }
            Content::End => {
                self.has_begun()?;
                self.ended = true;
                Ok(())
            }
        }
    }

    // The rulebook that was read, once the end record came.
    pub(crate) fn finish(self) -> Opened
        requires { self.ended ≡ true }
        ensures policy_of_the_header { self.policy ≡ Some result.policy }
        ensures rules_of_the_draft { result.book.rules ≡ self.draft.rules }
        ensures entries_of_the_draft { result.book.entries ≡ self.draft.entries }
    {
        let Scan {
            policy,
            ended: _,
            draft,
        } = self;
        Opened {
            book: draft.seal(),
            policy: policy.unwrap(),
        }
    }

    fn has_begun(&self) -> Result<(), BookFault>
        ensures a_header_came_first { result ≡ (if is_some self.now.policy then Ok tt else Err HeaderMisplaced) }
    {
        match self.policy {
            Some(_) => Ok(()),
            None => Err(BookFault::HeaderMisplaced),
        }
    }

    fn begin(&mut self, header: Header) -> Result<(), BookFault>
        ensures accepts_a_good_header_that_comes_first { result ≡ (if is_some self.old.policy then Err HeaderMisplaced else (if good_header header then Ok tt else Err HeaderUnknown)) }
        ensures policy_of_an_accepted_header { policy_code self.new.policy ≡ (if is_ok result then Some header.policy else policy_code self.old.policy) }
        ensures ended_unchanged { self.new.ended ≡ self.old.ended }
        ensures draft_unchanged { self.new.draft ≡ self.old.draft }
    {
        if self.policy.is_some() {
            return Err(BookFault::HeaderMisplaced);
        }
        if header.edition != EDITION {
            return Err(BookFault::HeaderUnknown);
        }
        self.policy = Some(Shipped::try_from(header.policy)?);
        Ok(())
    }
}
