//! Prints the 64-bit FNV-1a hashes of the published test strings; the expected output is the published table.
#![tactic(auto)]

use rules::fnv;
use std::io;

const STRINGS: [&str; 11] = [
    "", "a", "b", "c", "d", "e", "f", "fo", "foo", "foob", "foobar",
];

fn main(rt: HostRuntime) -> io::Result<()> {
    for text in STRINGS.iter() {
        let hash = fnv::of(text.as_bytes());
        println!(rt; "{hash:016x} \"{text}\"")?;
    }
    Ok(())
}
