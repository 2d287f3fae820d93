//! Row files: a line `stamp TAG`, then lines `NAME TAG:VALUE TAG:VALUE`. Blank lines and lines that
//! begin with `#` are passed over. A tag is decimal; a value is decimal, or hexadecimal after `0x`.
ghost use Rattle.std.specs.Prelude.{◌≡◌, true, IfOk};
ghost use Rattle.rules.specs.Kinds.{addresses};

use columns::Row;
use names::Name;
use rules::leaf::Leaf;
use rules::number::AddressRule;
use rules::rule::LeafRule;
use std::alloc::{AllocError, Global};
use std::fmt;
use std::num::ParseIntError;
use std::str::FromStr;
use thiserror::Error;
use trees::codes::Refusal;

/// The most rows of a file: two trees of so many fields fit on the shelf.
pub const MOST_ROWS: usize = 2047;

/// A row file as read.
#[derive(Drop)]
pub struct Sheet {
    pub stamp: u16,
    pub rows: Vec<Row>,
}

/// One of the two columns of leaves.
#[derive(Clone, Copy, Debug, PartialEq, Eq, Hash)]
pub enum Column {
    Declared,
    Found,
}

impl fmt::Display for Column {
    fn fmt<W: fmt::Write>(&self, f: &mut fmt::Formatter<W>) -> fmt::Result {
        f.write_str(match self {
            Column::Declared => "declared",
            Column::Found => "found",
        })
    }
}

/// What a line lacks.
#[derive(Clone, Copy, Debug, PartialEq, Eq, Hash, Error)]
pub enum Want {
    #[error("the word stamp and a tag from 0 to 65535")]
    Stamp,
    #[error("three fields: a name, the declared leaf and the found leaf")]
    Fields,
    #[error("a name of 1 to 32 bytes, each from 33 to 126")]
    Name,
    #[error("the {0} leaf as TAG:VALUE")]
    Leaf(Column),
    #[error("a tag from 1 to 3 in the {0} leaf")]
    Tag(Column),
    #[error("at most {most} rows", most = MOST_ROWS)]
    Rows,
}

/// Why a row file is refused.
#[derive(Debug, Drop, Error)]
pub enum Fault {
    #[error("line {line}: expected {want}")]
    Line { line: usize, want: Want },
    #[error("no line: expected {want}", want = Want::Stamp)]
    NoStamp,
    #[error("the shelf refused a call with {number}", number = u8::from(*.0))]
    Shelf(#[from] Refusal),
    #[error("no memory")]
    Memory(#[from(alloc)] AllocError),
}

/// Why a text is no leaf.
#[derive(Debug, Drop, Error)]
pub enum FieldError {
    #[error("no colon")]
    NoColon,
    #[error("the tag or the value is no number")]
    Number(#[from] ParseIntError),
}

/// A leaf as text, `TAG:VALUE`.
#[derive(Clone, Copy)]
pub struct Field(pub Leaf);

impl FromStr for Field {
    type Err = FieldError;

    fn from_str(text: &str) -> Result<Field, FieldError> {
        let (tag, value) = text.split_once(':').ok_or(FieldError::NoColon)?;
        let value = match value.strip_prefix("0x") {
            Some(digits) => u64::from_str_radix(digits, 16)?,
            None => value.parse()?,
        };
        Ok(Field(Leaf {
            tag: tag.parse()?,
            value,
        }))
    }
}

impl fmt::Display for Field {
    fn fmt<W: fmt::Write>(&self, f: &mut fmt::Formatter<W>) -> fmt::Result {
        let Field(Leaf { tag, value }) = *self;
        write!(f, "{tag}:0x{value:016x}")
    }
}

/// The leaf of a column, which the address rule admits.
fn read_column(text: &str, column: Column) -> Result<Leaf, Want>
    ensures { IfOk result (λ leaf. addresses.admits leaf ≡ true) }
{
    let Ok(Field(leaf)) = text.parse() else {
        return Err(Want::Leaf(column));
    };
    if AddressRule.admits(leaf) {
        Ok(leaf)
    } else {
        Err(Want::Tag(column))
    }
}

/// The row of a line, whose leaves the address rule admits. No FromStr: the type is another
/// crate's.
fn read_row(line: &str) -> Result<Row, Want>
    ensures declared { IfOk result (λ row. addresses.admits row.declared ≡ true) }
    ensures found { IfOk result (λ row. addresses.admits row.found ≡ true) }
{
    let mut words = line.split_whitespace();
    let (Some(name), Some(declared), Some(found), None) = (
        words.next(),
        words.next(),
        words.next(),
        words.next(),
    ) else {
        return Err(Want::Fields);
    };
    Ok(Row {
        name: Name::new(name.as_bytes()).ok_or(Want::Name)?,
        declared: read_column(declared, Column::Declared)?,
        found: read_column(found, Column::Found)?,
    })
}

/// The tag of a line `stamp TAG`.
fn read_stamp(line: &str) -> Result<u16, Want> {
    let mut words = line.split_whitespace();
    let (Some(word), Some(tag), None) = (words.next(), words.next(), words.next()) else {
        return Err(Want::Stamp);
    };
    if word != "stamp" {
        return Err(Want::Stamp);
    }
    tag.parse().map_err(|_| Want::Stamp)
}

/// The whole file, or the first line that is not understood.
pub fn read(alloc: Global, text: &str) -> Result<Sheet, Fault> {
    let mut lines = text
        .lines()
        .enumerate()
        .filter(|(_, line)| !line.is_empty() && !line.starts_with('#'));
    let Some((i, line)) = lines.next() else {
        return Err(Fault::NoStamp);
    };
    let stamp = read_stamp(line).map_err(|want| refused(i, want))?;
    let mut rows = Vec::new(alloc);
    for (i, line) in lines {
        if rows.len() == MOST_ROWS {
            return Err(refused(i, Want::Rows));
        }
        rows.push(read_row(line).map_err(|want| refused(i, want))?)?;
    }
    Ok(Sheet { stamp, rows })
}

/// What is said of the line with so many before it.
fn refused(before: usize, want: Want) -> Fault {
    Fault::Line {
        line: before.saturating_add(1),
        want,
    }
}

#[cfg(test)]
mod tests {
    use super::*;
    use std::test::Fail;

    const REFUSED: [(&str, &str); 12] = [
        (
            "",
            "no line: expected the word stamp and a tag from 0 to 65535",
        ),
        (
            "# only this\n\n",
            "no line: expected the word stamp and a tag from 0 to 65535",
        ),
        (
            "stamp 65536\n",
            "line 1: expected the word stamp and a tag from 0 to 65535",
        ),
        (
            "stamp 3 3\n",
            "line 1: expected the word stamp and a tag from 0 to 65535",
        ),
        (
            "stamp 3\nm 1:1\n",
            "line 2: expected three fields: a name, the declared leaf and the found leaf",
        ),
        (
            "stamp 3\nm 1:1 1:1 1:1\n",
            "line 2: expected three fields: a name, the declared leaf and the found leaf",
        ),
        (
            "stamp 3\n\na23456789012345678901234567890123 1:1 1:1\n",
            "line 3: expected a name of 1 to 32 bytes, each from 33 to 126",
        ),
        (
            "stamp 3\nn\u{e9} 1:1 1:1\n",
            "line 2: expected a name of 1 to 32 bytes, each from 33 to 126",
        ),
        (
            "stamp 3\nm 1 1:1\n",
            "line 2: expected the declared leaf as TAG:VALUE",
        ),
        (
            "stamp 3\nm 1:1 1:18446744073709551616\n",
            "line 2: expected the found leaf as TAG:VALUE",
        ),
        (
            "stamp 3\nm 0:1 1:1\n",
            "line 2: expected a tag from 1 to 3 in the declared leaf",
        ),
        (
            "stamp 3\nm 1:1 4:1\n",
            "line 2: expected a tag from 1 to 3 in the found leaf",
        ),
    ];

    #[test]
    fn refused(rt: HostRuntime) -> Result<(), Fail> {
        for (text, message) in REFUSED.iter() {
            match read(rt.alloc(), text) {
                Ok(_) => return Err(Fail::new("a bad row file was accepted")),
                Err(fault) => assert!(rt; fault.to_string(rt.alloc())?.as_str() == *message),
            }
        }
        Ok(())
    }

    #[test]
    fn accepted(rt: HostRuntime) -> Result<(), Fail> {
        let text =
            "# a comment\nstamp 9\n\na2345678901234567890123456789012 2:0xff 1:0xffffffffffffffff\n";
        let sheet = read(rt.alloc(), text)?;
        assert_eq!(rt; sheet.stamp, 9);
        assert!(rt; sheet.rows.len() == 1);
        let row = sheet.rows[0];
        assert_eq!(rt; row.declared.tag, 2);
        assert_eq!(rt; row.declared.value, 255);
        assert_eq!(rt; row.found.value, 18446744073709551615);
        assert_eq!(rt; row.name.len(), 32);
        Ok(())
    }

    #[test]
    fn most_rows(rt: HostRuntime) -> Result<(), Fail> {
        let mut text = String::new(rt.alloc());
        text.push_str("stamp 3\n")?;
        for _ in 0..MOST_ROWS {
            text.push_str("m 1:1 1:1\n")?;
        }
        assert!(rt; read(rt.alloc(), text.as_str())?.rows.len() == MOST_ROWS);
        text.push_str("m 1:1 1:1\n")?;
        match read(rt.alloc(), text.as_str()) {
            Ok(_) => Err(Fail::new("too many rows were accepted")),
            Err(fault) => {
                assert!(rt;
                    fault.to_string(rt.alloc())?.as_str() == "line 2049: expected at most 2047 rows"
                );
                Ok(())
            },
        }
    }
}
