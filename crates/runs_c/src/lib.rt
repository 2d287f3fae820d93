//! The static library for C: the one symbol `run_script`, which is `runs::run_script` with its contract. A crate is
//! a library or a static library, so the entry that other crates call stays in `runs`, and this crate only exports it.
#![tactic(auto)]

ghost use Rattle.std.specs.Prelude.{◌≡◌, length, if◌then◌else◌};
ghost use Rattle.rules.specs.Kinds.{numbers};
ghost use Rattle.trees.specs.State.{opened};
ghost use Rattle.trees.specs.Runs.{AgreeAfterRuns};
ghost use Rattle.script.specs.Scripts.{fit, answered};

/// Plays a script on an empty shelf of 256 cells under the number rule. 0: the answers are written, and what lies
/// past them stays; 1: the script is unfit or the answers have too little room, and nothing is written.
#[unsafe(no_mangle)]
pub extern "C" fn run_script(script: &[u8], answers: &mut [u8]) -> u32
    ensures result { result ≡ (if fit script.now (length answers.old) then 0 else 1) }
    ensures bytes { answers.new ≡ (if fit script.now (length answers.old) then answered numbers (opened 256) script.now answers.old else answers.old) }
    ensures laws { AgreeAfterRuns }
{
    runs::run_script(script, answers)
}
