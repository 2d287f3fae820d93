//! What a script gives, as text: a line for each record with its number, the refusal, and the answer as a word or
//! as 16 hexadecimal digits; the one line `1` for a script that is unfit. The answers are those of the entry for C.
#![tactic(auto)]

use rules::words::{Ordered, Truth};
use runs::run_script;
use script::{answer, record, scripts};
use std::alloc::{AllocError, Global};
use std::cmp::Ordering;
use std::fmt;

/// The line of one record: its number, and the sixteen bytes of its answer, whose second is the answer code.
#[derive(Clone, Copy)]
struct Line<'a> {
    number: usize,
    answer: &'a [u8],
}

impl fmt::Display for Line<'_> {
    fn fmt<W: fmt::Write>(&self, f: &mut fmt::Formatter<W>) -> fmt::Result {
        let [
            refusal,
            code,
            _,
            _,
            _,
            _,
            _,
            _,
            n0,
            n1,
            n2,
            n3,
            n4,
            n5,
            n6,
            n7,
        ] = self.answer
        else {
            return Ok(());
        };
        let number = self.number;
        write!(f, "{number} {refusal} ")?;
        match *code {
            1 => Truth(None).fmt(f)?,
            2 => Truth(Some(false)).fmt(f)?,
            3 => Truth(Some(true)).fmt(f)?,
            4 => Ordered(Some(Ordering::Less)).fmt(f)?,
            5 => Ordered(Some(Ordering::Equal)).fmt(f)?,
            6 => Ordered(Some(Ordering::Greater)).fmt(f)?,
            7 => {
                let value = u64::from_le_bytes([*n0, *n1, *n2, *n3, *n4, *n5, *n6, *n7]);
                write!(f, "{value:016x}")?;
            }
            _ => write!(f, "-")?,
        }
        write!(f, "\n")
    }
}

/// The lines of a script, played on 256 cells under the number rule.
pub fn lines(heap: Global, script: &[u8]) -> Result<String, AllocError> {
    let count = (script.len() / record::SIZE).min(scripts::MOST);
    let mut answers = vec![in heap; 0; answer::SIZE * count]?;
    if run_script(script, answers.as_mut_slice()) != 0 {
        return String::from_str(heap, "1\n");
    }
    let mut text = String::new(heap);
    for (number, answer) in answers.as_slice().chunks_exact(answer::SIZE).enumerate() {
        let line = Line { number, answer };
        write!(text, "{line}")?;
    }
    Ok(text)
}
