// A hall's rulebook as the command reads it.
use crate::words;
use book::{FileFault, Opened, read};
use hall::{Hall, HallTest, Numbered, blank_entries, blank_rules};
use rules::{Entry, Rule, View};
use std::{fmt, fs};

// The sealed book, and the memory that its rules and entries stand in.
#[derive(Drop)]
pub struct Rulebook {
    opened: Opened,
    rules: [Rule<HallTest>; 64],
    entries: [Entry; 32],
}

impl Rulebook {
    pub fn read(bytes: &[u8]) -> Result<Rulebook, FileFault> {
        let mut rules = blank_rules();
        let mut entries = blank_entries();
        let opened = read::<Hall>(bytes, &mut rules, &mut entries)?;
        Ok(Rulebook {
            opened,
            rules,
            entries,
        })
    }

    pub fn view(&self) -> View<Hall> {
        self.opened.book.view(&self.rules, &self.entries)
    }

    // The book in words. Each line is printed by itself, so that it goes out whole: printed all at once, lines are cut where the
    // buffer of a print is full.
    pub fn print(&self, rt: &HostRuntime) -> anyhow::Result<()> {
        println!(rt; "{self}")?;
        lines(rt, &self.rules, self.opened.book.rules())?;
        lines(rt, &self.entries, self.opened.book.entries())
    }
}

// The line above its rules and entries.
impl fmt::Display for Rulebook {
    fn fmt<W: fmt::Write>(&self, f: &mut fmt::Formatter<W>) -> fmt::Result {
        let policy = self.opened.policy;
        let code = policy.code();
        let rule_count = self.opened.book.rules();
        let rule_word = if rule_count == 1 { "rule" } else { "rules" };
        let entry_count = self.opened.book.entries();
        let entry_word = if entry_count == 1 { "entry" } else { "entries" };
        write!(
            f,
            "edition 2, policy {code} ({policy}), {rule_count} {rule_word}, {entry_count} {entry_word}"
        )
    }
}

// The first of the items, each with its number on a line of its own.
fn lines<T: Copy>(rt: &HostRuntime, items: &[T], count: usize) -> anyhow::Result<()>
where
    Numbered<T>: fmt::Display,
{
    for (number, item) in items.iter().take(count).enumerate() {
        rt.println(Numbered {
            number,
            item: *item,
        })?;
    }
    Ok(())
}

// `book FILE`: the rulebook in words, or the refusal.
pub fn run(rt: &HostRuntime, given: &[String]) -> anyhow::Result<()> {
    let [_, path] = given else {
        return words::bad(rt, "expected one file after", "book");
    };
    match open(rt, path.as_str())? {
        Ok(book) => book.print(rt)?,
        Err(fault) => println!(rt; "refused: {fault}")?,
    }
    Ok(())
}

// The rulebook in the file.
pub fn open(rt: &HostRuntime, path: &str) -> anyhow::Result<Result<Rulebook, FileFault>> {
    match fs::read(rt, path) {
        Ok(bytes) => Ok(Rulebook::read(bytes.as_slice())),
        Err(_) => words::bad(rt, "cannot read", path),
    }
}
