//! What the entry for C calls: a script and its answers as byte slices, 256 cells, the number rule.
ghost use Rattle.std.specs.Prelude.{◌≡◌, length, if◌then◌else◌};
ghost use Rattle.rules.specs.Kinds.{numbers};
ghost use Rattle.trees.specs.State.{opened};
ghost use Rattle.trees.specs.Runs.{AgreeAfterRuns};
ghost use Rattle.script.specs.Scripts.{fit, answered};

use crate::play::play_script;
use cells::Cell;
use rules::assemblies;
use shelf::Shelf;

/// The cells of the shelf that scripts are played on.
pub const CELLS: usize = 256;

/// Plays a script on an empty shelf of 256 cells under the number rule, for C: no heap, and a number. 0: the answers are written, and what lies
/// past them stays; 1: the script is unfit or the answers have too little room, and nothing is written.
pub fn run_script(script: &[u8], answers: &mut [u8]) -> u32
    ensures result { result ≡ (if fit script.now (length answers.old) then 0 else 1) }
    ensures bytes { answers.new
        ≡ (if fit script.now (length answers.old)
        then answered numbers (opened 256) script.now answers.old
        else answers.old) }
    ensures laws { AgreeAfterRuns }
{
    let mut cells = [Cell::VACANT; CELLS];
    let mut saved = [Cell::VACANT; CELLS];
    let mut shelf = Shelf::open(&mut cells, &mut saved);
    match play_script(&mut shelf, &assemblies::board(), script, answers) {
        Ok(()) => 0,
        Err(_) => 1,
    }
}
