//! Playing a whole script.
ghost use Rattle.std.specs.Prelude.{◌≡◌, ◌*◌, ◌≤◌, length, if◌then◌else◌, Ok, Err};
ghost use Rattle.trees.specs.declared.codes.Refusal.TheVariants.{Lent};
ghost use Rattle.trees.specs.Play.{play};
ghost use Rattle.trees.specs.Runs.{AgreeAfterRuns};
ghost use Rattle.script.specs.Records.{record_of, call_of};
ghost use Rattle.script.specs.Answers.{fields_of};
ghost use Rattle.script.specs.Scripts.{count, records, calls, fit, answered};
ghost use Rattle.runs.specs.Replies.{Replies};

use crate::acts::act;
use rules::rule::LeafRule;
use script::answer::Reply;
use script::record::Call;
use script::{answer, record, scripts};
use shelf::Shelf;
use trees::codes::Refusal;

/// Plays one record, fit or not.
fn play_record<R: LeafRule>(shelf: &mut Shelf<'_>, rule: &R, bytes: &[u8]) -> Reply
    requires { length bytes.now ≡ 80 }
    ensures { Replies (R.means rule.now) (call_of (record_of bytes.now)) shelf.old shelf.new (fields_of result) }
{
    act(shelf, rule, &Call::read(bytes))
}

/// Plays the records of a script, each as its bytes stand when its turn comes.
fn play_records<R: LeafRule>(shelf: &mut Shelf<'_>, rule: &R, script: &[u8], answers: &mut [u8])
    requires room { 16 * count script.now ≤ length answers.old }
    ensures trees { shelf.new ≡ play (R.means rule.now) shelf.old (calls (records script.now)) }
    ensures bytes { answers.new ≡ answered (R.means rule.now) shelf.old script.now answers.old }
{
    // the part written goes by its index: what is written through chunks_exact_mut is not known afterwards
    for (i, bytes) in script.chunks_exact(record::SIZE).enumerate() {
        let reply = play_record(shelf, rule, bytes);
        answers[answer::SIZE * i..answer::SIZE * i + answer::SIZE].copy_from_slice(&answer::bytes(
            reply,
        ));
    }
}

/// Plays a script on a shelf, under a rule. A script that is unfit, or whose answers have too little room, is
/// refused, and nothing is changed. Otherwise the trees and every answer byte are those of the theory. Whatever
/// is played, on whichever shelf: order and equality of its trees agree, equal trees hash alike, and an accepted
/// patch applied again changes nothing.
pub fn play_script<R: LeafRule>(
    shelf: &mut Shelf<'_>,
    rule: &R,
    script: &[u8],
    answers: &mut [u8],
) -> Result<(), Refusal>
    ensures result { result ≡ (if fit script.now (length answers.old) then Ok tt else Err Lent) }
    ensures trees { shelf.new
        ≡ (if fit script.now (length answers.old)
        then play (R.means rule.now) shelf.old (calls (records script.now))
        else shelf.old) }
    ensures bytes { answers.new
        ≡ (if fit script.now (length answers.old)
        then answered (R.means rule.now) shelf.old script.now answers.old
        else answers.old) }
    ensures laws { AgreeAfterRuns }
{
    if !scripts::is_fit(script, answers.len()) {
        return Err(Refusal::Lent);
    }
    play_records(shelf, rule, script, answers);
    Ok(())
}
