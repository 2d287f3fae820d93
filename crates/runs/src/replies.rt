//! The results of calls as replies.
ghost use Rattle.std.specs.Prelude.{◌≡◌, ℕ, min, List, Err, MatchResult, IsOkAnd, IsErrAnd};
ghost use Rattle.shelf.specs.Stops.{fault_numbers, stopping, CellsFit, IsShort};
ghost use Rattle.script.specs.Answers.{reply_of, fields_of};

use patch::ApplyError;
use script::answer::{Reply, Stopped, Value};
use shelf::Stop;
use trees::codes::Refusal;

/// The reply to a call, whatever it answers.
pub(crate) fn reply<T: Into<Value>, E: Into<Stopped>>(res: Result<T, E>) -> Reply
    ensures { MatchResult res
        (λ answer. IsOkAnd result (T.converts answer))
        (λ stop. IsErrAnd result (E.converts stop)) }
{
    match res {
        Ok(answer) => Ok(answer.into()),
        Err(stop) => Err(stop.into()),
    }
}

/// A number of cells in an answer.
fn short(n: usize) -> u16
    ensures { result ≡ min n 65535 }
{
    u16::try_from(n).unwrap_or(u16::MAX)
}

/// The length of a path in an answer.
fn steps(n: usize) -> u8
    ensures { result ≡ min n 255 }
{
    u8::try_from(n).unwrap_or(u8::MAX)
}

/// The refusal and the two numbers of a patch's fault.
fn numbers(error: ApplyError) -> (Refusal, u16, u16)
    ensures { CellsFit error → result ≡ fault_numbers error }
{
    match error {
        ApplyError::MismatchedKinds(e) => (
            Refusal::MismatchedKinds,
            u16::from(u8::from(e.from)),
            u16::from(u8::from(e.to)),
        ),
        ApplyError::MismatchedTypes { from, to } => (Refusal::MismatchedTypes, from, to),
        ApplyError::Room { from, to } => (Refusal::Room, short(from), short(to)),
    }
}

/// Why a patch was not laid, in the numbers of an answer; the row is no part of it. Shelf and answer are types of
/// crates that do not know each other, so no crate may write this as a `From`.
pub(crate) fn stopped(stop: Stop) -> Stopped
    ensures { (row : List ℕ) → IsShort (Err stop)
        → fields_of (Err result) ≡ reply_of (stopping (Err stop) row) }
{
    match stop {
        Stop::Refused(refusal) => refusal.into(),
        Stop::Fault(fault) => {
            let (refusal, from, to) = numbers(fault.error);
            Stopped {
                refusal,
                from,
                to,
                path_len: steps(fault.depth),
            }
        }
    }
}
