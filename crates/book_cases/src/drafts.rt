// Drafts: the small hall put together by hand, and adds that are refused.
use book::{Draft, Fault};
use hall::{Hall, HallTest, blank_entries, blank_rules, small_entries, small_rules};
use rules::{Entry, Rule};
use sets::Set;

pub fn play(rt: &HostRuntime) -> anyhow::Result<()> {
    let mut draft = Draft::new();
    add_rules(rt, &mut draft, &mut blank_rules())?;
    add_entries(rt, &mut draft, &mut blank_entries())?;
    let sealed = draft.seal();
    let rule_count = sealed.rules();
    let entry_count = sealed.entries();
    println!(rt; "sealed: {rule_count} rules, {entry_count} entry")?;
    Ok(())
}

fn add_rules(
    rt: &HostRuntime,
    draft: &mut Draft,
    memory: &mut [Rule<HallTest>],
) -> anyhow::Result<()> {
    for rule in small_rules() {
        show(rt, "rule", draft.add_rule::<Hall>(memory, rule))?;
    }
    let [first, ..] = small_rules();
    let clash = Rule {
        test: first.test,
        grants: Set::of(&[7]),
        denies: Set::of(&[7]),
    };
    show(
        rt,
        "rule that grants and denies role 7",
        draft.add_rule::<Hall>(memory, clash),
    )?;
    show(
        rt,
        "fifth rule, with no memory",
        draft.add_rule::<Hall>(&mut [], first),
    )
}

fn add_entries(rt: &HostRuntime, draft: &mut Draft, memory: &mut [Entry]) -> anyhow::Result<()> {
    for entry in small_entries() {
        show(rt, "entry", draft.add_entry(memory, entry))?;
    }
    let circle = Entry {
        first: 3,
        second: 3,
        start: 0,
        duration: 1,
    };
    show(
        rt,
        "entry from role 3 to itself",
        draft.add_entry(memory, circle),
    )
}

fn show(rt: &HostRuntime, what: &str, answer: Result<(), Fault>) -> anyhow::Result<()> {
    match answer {
        Ok(()) => println!(rt; "{what}: added")?,
        Err(fault) => {
            let number = fault.number();
            println!(rt; "{what}: {number}")?;
        }
    }
    Ok(())
}
