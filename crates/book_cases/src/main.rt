// What adding to drafts is answered; then the table of rulebook files on standard input, and what each is answered.
#![tactic(auto)]

mod bytes;
mod case;
mod drafts;

use case::Case;

fn main(rt: HostRuntime) -> anyhow::Result<()> {
    drafts::play(&rt)?;
    for line in rt.lines(rt.alloc()) {
        let text = line?;
        if let Some(case) = Case::parse(text.as_str()) {
            case.play(&rt)?;
        }
    }
    Ok(())
}
