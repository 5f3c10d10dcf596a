//! Plays every example script, and tells whether it printed what is expected of it.
#![tactic(auto)]

use bench::play_settings;
use std::{fmt, fs};

const EXAMPLES: [&str; 7] = [
    "short", "readers", "forced", "refusals", "life", "mill", "storm",
];

// Plays one example.
fn replay(rt: &HostRuntime, name: &str) -> anyhow::Result<()> {
    let script = fs::read(rt, format!(in rt.alloc(); "{name}.script")?.as_str())?;
    let expected = fs::read_to_string(rt, format!(in rt.alloc(); "{name}.expected")?.as_str())?;
    // where memory for the text runs out, the program writes what it always wrote then: that a text could not be formatted
    let out = play_settings(rt.alloc(), script.as_slice()).map_err(|_| fmt::Error)?;
    let lines = out.as_str().lines().count();
    if out.as_str() == expected.as_str() {
        println!(rt; "{name}: {lines} lines, as expected")?;
    } else {
        println!(rt; "{name}: NOT as expected")?;
    }
    Ok(())
}

fn main(rt: HostRuntime) -> anyhow::Result<()> {
    for name in EXAMPLES {
        replay(&rt, name)?;
    }
    Ok(())
}
