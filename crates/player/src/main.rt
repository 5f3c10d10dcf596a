//! The bench player: plays the script on standard input over four settings, all off, and prints what each line told.
#![tactic(auto)]

use bench::{MOST_INPUT, play_settings};
use std::fmt;
use std::io::Read;

fn main(rt: HostRuntime) -> anyhow::Result<()> {
    let mut input = Vec::new(rt.alloc());
    rt.stdin().take(MOST_INPUT as u64).read_to_end(&mut input)?;
    // where memory for the text runs out, the program writes what it always wrote then: that a text could not be formatted
    let out = play_settings(rt.alloc(), input.as_slice()).map_err(|_| fmt::Error)?;
    print!(rt; "{out}")?;
    Ok(())
}
