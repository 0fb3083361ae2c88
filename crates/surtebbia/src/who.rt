// `who FILE POLICY MINUTE LEVEL CERTIFICATES SITE`: the roles to which such a record is entitled by rules.
use crate::rulebook;
use crate::words::{self, List, Policy};
use hall::Numbers;

pub fn run(rt: &HostRuntime, given: &[String]) -> anyhow::Result<()> {
    let [_, path, policy, minute, level, certificates, site] = given else {
        return words::bad(
            rt,
            "expected FILE POLICY MINUTE LEVEL CERTIFICATES SITE after",
            "who",
        );
    };
    let Policy(policy) = words::read(rt, "no policy code 1 to 3:", policy.as_str())?;
    let minute = words::read::<u32>(rt, "no minute:", minute.as_str())?;
    let level = words::read::<u16>(rt, "no level:", level.as_str())?;
    let List(held) = words::read(rt, "no list of certificates:", certificates.as_str())?;
    let site = words::read::<u8>(rt, "no site:", site.as_str())?;
    match rulebook::open(rt, path.as_str())? {
        Ok(book) => {
            let record = (level, (held, site));
            let roles = Numbers(book.view().entitled_roles(&policy, record, minute));
            println!(rt; "roles {roles}")?;
        }
        Err(fault) => println!(rt; "refused: {fault}")?,
    }
    Ok(())
}
