// Plays positions through the engine's calls, with amounts and with choices, and prints what each call says.
#![tactic(auto)]

mod amounts;
mod choices;
mod saying;

use std::io;

fn run(rt: &HostRuntime) -> io::Result<()> {
    amounts::play(rt)?;
    choices::play(rt)
}

fn main(rt: HostRuntime) -> io::Result<()> {
    run(&rt)
}
