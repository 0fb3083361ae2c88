// A line is a name, the memory for rules and for entries, and the file's bytes: words of hexadecimal digits, each perhaps
// followed by `x` and how often it stands there. `#` begins a comment.
use crate::bytes;
use book::read;
use hall::{Hall, blank_entries, blank_rules};
use std::str::SplitWhitespace;

// A rulebook file, and how much memory it is read into.
#[derive(Drop)]
pub struct Case<'a> {
    name: &'a str,
    rules: usize,
    entries: usize,
    file: SplitWhitespace<'a>,
}

impl<'a> Case<'a> {
    // The case of the line, none where it is empty or a comment.
    pub fn parse(line: &'a str) -> Option<Case<'a>> {
        let mut words = line.split_whitespace();
        let name = words.next().filter(|_| !line.starts_with('#'))?;
        let rules = bytes::number(words.next());
        let entries = bytes::number(words.next());
        Some(Case {
            name,
            rules,
            entries,
            file: words,
        })
    }

    // Reads the file, whose bytes are put together only here: as a part of the case that takes longer.
    pub fn play(self, rt: &HostRuntime) -> anyhow::Result<()> {
        let name = self.name;
        let mut file = Vec::new(rt.alloc());
        for word in self.file {
            bytes::append(&mut file, word)?;
        }
        let mut rules = blank_rules();
        let mut entries = blank_entries();
        let most_rules = self.rules.min(64);
        let most_entries = self.entries.min(32);
        match read::<Hall>(
            file.as_slice(),
            &mut rules[..most_rules],
            &mut entries[..most_entries],
        ) {
            Ok(opened) => {
                let policy = opened.policy.code();
                let rule_count = opened.book.rules();
                let entry_count = opened.book.entries();
                println!(rt;
                    "{name}: accepted, policy {policy}, rules {rule_count}, entries {entry_count}"
                )?;
            }
            Err(fault) => println!(rt; "{name}: {fault}")?,
        }
        Ok(())
    }
}
