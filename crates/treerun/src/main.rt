//! Plays the script on standard input on 256 cells under the number rule, and prints a line for each record:
//! its number, the refusal, and the answer as a word or as 16 hexadecimal digits. A script that is unfit gives
//! the one line `1`.
#![tactic(auto)]

use lines::lines;
use std::io::Read;

fn main(rt: HostRuntime) -> anyhow::Result<()> {
    let mut script = Vec::new(rt.alloc());
    rt.stdin().read_to_end(&mut script)?;
    let text = lines(rt.alloc(), script.as_slice())?;
    rt.print(text.as_str())?;
    Ok(())
}
