// Who may take what in the small hall, from the bytes of its rulebook file to the last verdict.
use crate::rulebook::Rulebook;
use hall::{Hall, HallRecord, Numbers, SMALL_FILE, small_register};
use rules::{Objection, Shipped, View};

// The small hall has rules 0 to 3 and roles 0 to 3.
const RULES: u8 = 4;

const ROLES: u8 = 4;

const POLICIES: [Shipped; 3] = [Shipped::Permission, Shipped::Denial, Shipped::LocalDenial];

const MINUTES: [u32; 4] = [99, 100, 159, 160];

pub fn play(rt: &HostRuntime) -> anyhow::Result<()> {
    match Rulebook::read(&SMALL_FILE) {
        Ok(book) => {
            book.print(rt)?;
            let view = book.view();
            seniority(rt, &view)?;
            verdicts(rt, &view)
        }
        Err(fault) => {
            println!(rt; "refused: {fault}")?;
            Ok(())
        }
    }
}

fn seniority(rt: &HostRuntime, view: &View<Hall>) -> anyhow::Result<()> {
    let senior = view.seniority();
    for number in 0..RULES {
        let juniors = Numbers(senior.juniors(number));
        println!(rt; "rule {number} is senior to {juniors}")?;
    }
    Ok(())
}

fn verdicts(rt: &HostRuntime, view: &View<Hall>) -> anyhow::Result<()> {
    let register = small_register();
    for policy in POLICIES {
        let code = policy.code();
        println!(rt; "policy {code} ({policy})")?;
        for minute in MINUTES {
            entitled(rt, view, policy, &register, minute)?;
        }
    }
    Ok(())
}

// A line for each person: the roles to which the person is entitled, and the rules that refuse others.
fn entitled(
    rt: &HostRuntime,
    view: &View<Hall>,
    policy: Shipped,
    register: &[HallRecord],
    minute: u32,
) -> anyhow::Result<()> {
    for (person, record) in register.iter().enumerate() {
        let roles = Numbers(view.entitled_roles(&policy, *record, minute));
        print!(rt; "  minute {minute}, person {person}: roles {roles}")?;
        refusals(rt, view, policy, *record, minute)?;
        println!(rt; "")?;
    }
    Ok(())
}

fn refusals(
    rt: &HostRuntime,
    view: &View<Hall>,
    policy: Shipped,
    record: HallRecord,
    minute: u32,
) -> anyhow::Result<()> {
    for role in 0..ROLES {
        if let Err(Objection::Denied { rule }) = view.verdict(&policy, record, role, minute) {
            print!(rt; "; role {role} refused by rule {rule}")?;
        }
    }
    Ok(())
}
