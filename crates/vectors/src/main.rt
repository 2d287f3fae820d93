//! Replays the scripts under data/, and holds what each gives to its lines, which an independent model of the same
//! rules answered (data/ORIGIN.md). A script that differs is named.
#![tactic(auto)]

use lines::lines;
use std::fs;

/// Whether a script gives its lines.
fn agrees(rt: &HostRuntime, name: &str) -> anyhow::Result<bool> {
    let heap = rt.alloc();
    let script = fs::read(rt, format!(in heap; "{name}.script")?.as_str())?;
    let expected = fs::read_to_string(rt, format!(in heap; "{name}.lines")?.as_str())?;
    let given = lines(heap, script.as_slice())?;
    Ok(given.as_str() == expected.as_str())
}

fn run(rt: &HostRuntime) -> anyhow::Result<()> {
    let names = fs::read_to_string(rt, "names.txt")?;
    let mut count = 0u32;
    let mut differ = 0u32;
    for name in names.as_str().lines() {
        count = count.saturating_add(1);
        if !agrees(rt, name)? {
            differ = differ.saturating_add(1);
            println!(rt; "{name} differs")?;
        }
    }
    if differ == 0 {
        println!(rt; "{count} scripts, all lines agree")?;
    }
    Ok(())
}

fn main(rt: HostRuntime) -> anyhow::Result<()> {
    run(&rt)
}
