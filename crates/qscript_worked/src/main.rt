//! Runs worked scripts, and compares their output with the output that was written by hand below their lines.
//!
//! Standard input has the scripts, one after another. `== NAME` begins a script, and `=? NAME` a script whose
//! fault is also explained. A line that begins with `> ` is output; every other line belongs to the script.
//! `@ FIRST LAST LINE` means LINE once for each number from FIRST to LAST, with this number in place of each
//! N in it.
#![tactic(auto)]

mod row;

use row::WorkedScript;
use std::io::Read;
use std::process::ExitCode;
use std::{io, str};

fn main(rt: HostRuntime) -> ExitCode {
    match compare_all(&rt) {
        Ok(true) => ExitCode::SUCCESS,
        Ok(false) => ExitCode::FAILURE,
        Err(_) => ExitCode::from(3),
    }
}

/// Runs the scripts of standard input, prints the outcome of each, and returns whether each printed its
/// written output.
fn compare_all<R: Input + Print + AllocGlobal>(rt: &R) -> io::Result<bool> {
    let mut text = Vec::new(rt.alloc());
    rt.reader().read_to_end(&mut text)?;
    let Ok(text) = str::from_utf8(text.as_slice()) else {
        return Ok(false);
    };
    let mut all = true;
    let mut row = None;
    for line in text.lines() {
        if let Some(next) = WorkedScript::begun_by(rt.alloc(), line)? {
            all = compare(rt, &row)? && all;
            row = Some(next);
        } else if let Some(row) = &mut row {
            row.add(line)?;
        }
    }
    Ok(compare(rt, &row)? && all)
}

/// Runs the row's script, if there is one, prints whether it passed, and returns whether it printed its
/// output.
fn compare<R: Print + AllocGlobal>(rt: &R, row: &Option<WorkedScript>) -> io::Result<bool> {
    let Some(row) = row else {
        return Ok(true);
    };
    let printed = row.printed(rt.alloc())?;
    let name = &row.name;
    if row.wants(printed.as_str()) {
        println!(rt; "{name}: as written")?;
        return Ok(true);
    }
    println!(rt; "{name}: printed\n{printed}")?;
    Ok(false)
}
