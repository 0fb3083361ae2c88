// The command: what the role core says, in words.
#![tactic(auto)]

mod demonstration;
mod rulebook;
mod who;
mod words;

use std::env;
use std::process::ExitCode;

// A word that cannot be read is named on standard error by now; where a write failed there is nothing more to say.
fn main(rt: HostRuntime) -> ExitCode {
    match run(&rt) {
        Ok(()) => ExitCode::SUCCESS,
        Err(_) => ExitCode::FAILURE,
    }
}

fn run(rt: &HostRuntime) -> anyhow::Result<()> {
    let given: Vec<String> = env::args(rt)?.skip(1).collect(rt.alloc())?;
    let Some(command) = given.first() else {
        return demonstration::play(rt);
    };
    match command.as_str() {
        "book" => rulebook::run(rt, given.as_slice()),
        "who" => who::run(rt, given.as_slice()),
        word => words::bad(rt, "unknown command", word),
    }
}
