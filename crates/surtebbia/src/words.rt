// The words that a person gives the command.
use anyhow::anyhow;
use rules::Shipped;
use sets::Set;
use std::str::FromStr;

// Names the word on standard error, and ends the command.
pub fn bad<T>(rt: &HostRuntime, what: &str, word: &str) -> anyhow::Result<T> {
    eprintln!(rt; "surtebbia: {what} '{word}'")?;
    Err(anyhow!("{what}"))
}

// What the word says, or the end of the command.
pub fn read<T: FromStr>(rt: &HostRuntime, what: &str, word: &str) -> anyhow::Result<T>
where
    T::Err: Drop,
{
    match word.parse::<T>() {
        Ok(value) => Ok(value),
        Err(_) => bad(rt, what, word),
    }
}

// A word that says nothing of what it should.
#[derive(Clone, Copy)]
pub struct Unreadable;

// A policy, by its code 1 to 3.
pub struct Policy(pub Shipped);

impl FromStr for Policy {
    type Err = Unreadable;

    fn from_str(word: &str) -> Result<Policy, Unreadable> {
        let code = word.parse::<u16>().map_err(|_| Unreadable)?;
        let policy = Shipped::try_from(code).map_err(|_| Unreadable)?;
        Ok(Policy(policy))
    }
}

// Numbers 0 to 63 with commas, `-` for none, `all` for all 64.
pub struct List(pub Set);

impl FromStr for List {
    type Err = Unreadable;

    fn from_str(word: &str) -> Result<List, Unreadable> {
        match word {
            "-" => Ok(List(Set::new())),
            "all" => Ok(List(Set::all())),
            _ => listed(word),
        }
    }
}

fn listed(word: &str) -> Result<List, Unreadable> {
    let mut set = Set::new();
    for part in word.split(',') {
        match part.parse::<u8>() {
            Ok(i) if i < 64 => set = set.with(i),
            _ => return Err(Unreadable),
        }
    }
    Ok(List(set))
}
