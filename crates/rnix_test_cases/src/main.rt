//! Replays stored cases, and prints a line for each list with the number of its texts. If the result for a text is not the stored one, the text and both
//! results are printed, at most ten times for each list, and the status is 1.
#![tactic(auto)]

mod list;
mod printed;

use self::list::{Case, first_case};
use self::printed::{List, printed};
use std::process::ExitCode;
use std::{fs, io};

// How many differences of a list are printed.
const SHOWN: u64 = 10;

// Returns whether the result for a case is the stored one. If it is not, prints the case if `shows` is true.
fn holds(rt: &HostRuntime, list: List, case: Case<'_>, shows: bool) -> io::Result<bool> {
    let found = printed(rt.alloc(), list, case.text)?;
    let wanted = list.wanted(case);
    if found.as_slice() == wanted.as_bytes() {
        return Ok(true);
    }
    if shows {
        let (name, text) = (list.name(), case.text);
        let found = str::from_utf8(found.as_slice()).unwrap_or("");
        println!(rt; "{name}: the text\n{text}\nprints\n{found}and not\n{wanted}")?;
    }
    Ok(false)
}

// Replays a list, and returns how many of its texts have another result, plus one if a part of the list cannot be read.
fn replay(rt: &HostRuntime, list: List) -> io::Result<u64> {
    let name = list.name();
    let stored = fs::read_to_string(rt, name)?;
    let mut rest = stored.as_str();
    let (mut texts, mut differences): (u64, u64) = (0, 0);
    for _byte in 0..stored.len() {
        let Some((case, more)) = first_case(rest) else {
            break;
        };
        rest = more;
        texts = texts.saturating_add(1);
        if !holds(rt, list, case, differences < SHOWN)? {
            differences = differences.saturating_add(1);
        }
    }
    println!(rt; "{name}: {texts} texts")?;
    if !rest.is_empty() {
        println!(rt; "{name}: a part of the list cannot be read")?;
        differences = differences.saturating_add(1);
    }
    Ok(differences)
}

fn main(rt: HostRuntime) -> io::Result<ExitCode> {
    let mut differences: u64 = 0;
    for list in List::ALL {
        differences = differences.saturating_add(replay(&rt, list)?);
    }
    Ok(ExitCode::from(if differences == 0 { 0 } else { 1 }))
}
