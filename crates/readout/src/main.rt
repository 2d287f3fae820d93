//! Reads two columns of leaves from standard input, a stamp tag first and then a row a line, and
//! prints each row with the answer of the release rule, then how the two columns compare as wholes,
//! and how many rows agree, differ or cannot be compared. Nothing is printed on standard output
//! unless every line is understood.
#![tactic(auto)]

mod rows;
mod show;
mod whole;

use columns;
use columns::Tally;
use columns::release::Release;
use rows::Sheet;
use rules::assemblies;
use std::io;
use std::process::ExitCode;

fn print_sheet(rt: &HostRuntime, sheet: &Sheet, whole: Release) -> io::Result<()> {
    let rule = assemblies::release(sheet.stamp);
    for row in sheet.rows.iter() {
        show::print_row(rt, row, columns::judge(&rule, *row))?;
    }
    show::print_whole(rt, whole)?;
    let tally = columns::count(&rule, sheet.rows.as_slice());
    let Tally {
        agree,
        differ,
        unknown,
    } = tally;
    println!(rt; "{agree} agree, {differ} differ, {unknown} cannot be compared")
}

fn run(rt: &HostRuntime) -> anyhow::Result<()> {
    let text = io::read_to_string(rt.alloc(), rt.stdin())?;
    let sheet = rows::read(rt.alloc(), text.as_str())?;
    let whole = whole::compare(rt.alloc(), &sheet)?;
    print_sheet(rt, &sheet, whole)?;
    Ok(())
}

fn main(rt: HostRuntime) -> ExitCode {
    match run(&rt) {
        Ok(()) => ExitCode::SUCCESS,
        Err(fault) => {
            let _ = eprintln!(rt; "readout: {fault}");
            ExitCode::FAILURE
        }
    }
}
