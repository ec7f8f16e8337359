//! Edits in ascending order, stored in runs of bounded length, so that adding one moves few others.

ghost use Rattle.std.specs.Prelude.{◌≡◌, ◌+◌, ◌≤◌, ◌++◌, true, false, List, length, map, string_bytes, MatchOption, IfOk, OnOk, OnErr};
ghost use Rattle.std.specs.Str.{IsCharBoundary};
ghost use Rattle.std.specs.List.{insert};
ghost use Rattle.std.specs.List.Sorted.{IsPartitionPoint};
ghost use Rattle.rnix_text.specs.Changes.{Change, AreAscending, AreInOrder, changed_from, HasOverlap};
ghost use Rattle.rnix_text.specs.Edit.{change_of};
ghost use Rattle.rnix_text.specs.Runs.{edits_of, ends_by, end_of, run_ends_by, AreFilled, index_in, IsIn, IsDivided, IsInsertionPoint};
ghost use Rattle.rnix_text.specs.declared.runs.InsertionPoint.TheVariants as insertion;

use crate::edits::Edit;
use std::alloc::{AllocError, Global};

/// The position for a new edit.
#[derive(Clone, Copy)]
pub(crate) enum InsertionPoint {
    /// In the run with the first index, before the edit with the second index.
    In(usize, usize),
    /// After all edits.
    Last,
}

// The greatest number of edits in a run.
const MAX_EDITS: usize = 256;
// The number of edits that stay in a run when it is split.
const HALF: usize = 128;

// Returns the end of the last edit of a run.
fn end_of(run: &[Edit]) -> usize
    ensures { result ≡ end_of 0 run.now }
{
    match run.last() {
        Some(edit) => edit.end,
        None => 0,
    }
}

// Returns the number of runs whose edits end at or before an offset.
fn runs_by(runs: &[Vec<Edit>], offset: usize) -> usize
    requires ascending { AreAscending 0 (map change_of (edits_of runs.now)) }
    requires filled { AreFilled runs.now }
    ensures bound { result ≤ length runs.now }
    ensures parted { IsPartitionPoint (λ run. run_ends_by offset run ≡ true) (λ run. run_ends_by offset run ≡ false) runs.now result }
{
    runs.partition_point(
        |run: &Vec<Edit>| -> bool
            ensures { result ≡ run_ends_by offset run.now }
        { end_of(run) <= offset },
    )
}

// Returns the number of edits of a run that end at or before an offset.
fn edits_by(run: &[Edit], offset: usize) -> usize
    requires { AreAscending 0 (map change_of run.now) }
    ensures bound { result ≤ length run.now }
    ensures parted { IsPartitionPoint (λ edit. ends_by offset edit ≡ true) (λ edit. ends_by offset edit ≡ false) run.now result }
{
    run.partition_point(
        |edit: &Edit| -> bool
            ensures { result ≡ ends_by offset edit.now }
        { edit.end <= offset },
    )
}

// Returns the position for an edit of a range: after the edits that end at or before its start. Returns `None` if it overlaps another edit.
pub(crate) fn insertion_point(
    runs: &[Vec<Edit>],
    start: usize,
    end: usize,
) -> Option<InsertionPoint>
    requires order { start ≤ end }
    requires ascending { AreAscending 0 (map change_of (edits_of runs.now)) }
    requires filled { AreFilled runs.now }
    ensures { MatchOption result (HasOverlap start end (map change_of (edits_of runs.now))) (IsInsertionPoint start end runs.now) }
{
    let run = runs_by(runs, start);
    if run == runs.len() {
        return Some(InsertionPoint::Last);
    }
    let edits = runs[run].as_slice();
    let at = edits_by(edits, start);
    if edits[at].start < end {
        return None;
    }
    Some(InsertionPoint::In(run, at))
}

// Adds a run with one edit.
fn add_run(runs: &mut Vec<Vec<Edit>>, edit: Edit) -> Result<(), AllocError>
    requires { AreFilled runs.old.items }
    ensures filled { AreFilled runs.new.items }
    ensures added { OnOk result (edits_of runs.new.items ≡ insert (edits_of runs.old.items) (length (edits_of runs.old.items)) edit) }
    ensures stays { OnErr result (edits_of runs.new.items ≡ edits_of runs.old.items) }
{
    let mut run = Vec::new(*runs.allocator());
    run.push(edit)?;
    runs.push(run)?;
    Ok(())
}

// Puts an edit into a run.
fn add_in(runs: &mut Vec<Vec<Edit>>, run: usize, at: usize, edit: Edit) -> Result<(), AllocError>
    requires filled { AreFilled runs.old.items }
    requires is_in { IsIn runs.old.items (insertion.In run at) }
    ensures filled { AreFilled runs.new.items }
    ensures added { OnOk result (edits_of runs.new.items ≡ insert (edits_of runs.old.items) (index_in runs.old.items (insertion.In run at)) edit) }
    ensures stays { OnErr result (edits_of runs.new.items ≡ edits_of runs.old.items) }
{
    runs[run].insert(at, edit)?;
    Ok(())
}

// Adds an edit after all others.
fn add_last(runs: &mut Vec<Vec<Edit>>, edit: Edit) -> Result<(), AllocError>
    requires { AreFilled runs.old.items }
    ensures filled { AreFilled runs.new.items }
    ensures added { OnOk result (edits_of runs.new.items ≡ insert (edits_of runs.old.items) (length (edits_of runs.old.items)) edit) }
    ensures stays { OnErr result (edits_of runs.new.items ≡ edits_of runs.old.items) }
{
    let count = runs.len();
    if count == 0 {
        return add_run(runs, edit);
    }
    let len = runs[count - 1].len();
    if len < MAX_EDITS {
        add_in(runs, count - 1, len, edit)
    } else {
        add_run(runs, edit)
    }
}

// Splits a run into two.
fn divide(runs: &mut Vec<Vec<Edit>>, run: usize) -> Result<(), AllocError>
    requires filled { AreFilled runs.old.items }
    requires is_in { IsIn runs.old.items (insertion.In run (HALF + 1)) }
    ensures filled { AreFilled runs.new.items }
    ensures edits { edits_of runs.new.items ≡ edits_of runs.old.items }
    ensures divided { OnOk result (IsDivided runs.old.items runs.new.items run HALF) }
{
    runs.reserve(1)?;
    let rest = runs[run].split_off(HALF)?;
    runs.insert(run + 1, rest)?;
    Ok(())
}

// Puts an edit into a run, and splits the run if it is full.
fn add_at(runs: &mut Vec<Vec<Edit>>, run: usize, at: usize, edit: Edit) -> Result<(), AllocError>
    requires filled { AreFilled runs.old.items }
    requires is_in { IsIn runs.old.items (insertion.In run at) }
    ensures filled { AreFilled runs.new.items }
    ensures added { OnOk result (edits_of runs.new.items ≡ insert (edits_of runs.old.items) (index_in runs.old.items (insertion.In run at)) edit) }
    ensures stays { OnErr result (edits_of runs.new.items ≡ edits_of runs.old.items) }
{
    if runs[run].len() < MAX_EDITS {
        return add_in(runs, run, at, edit);
    }
    divide(runs, run)?;
    if at <= HALF {
        add_in(runs, run, at, edit)
    } else {
        add_in(runs, run + 1, at - HALF, edit)
    }
}

/// Adds an edit at an insertion point.
pub(crate) fn add(
    runs: &mut Vec<Vec<Edit>>,
    insertion: InsertionPoint,
    edit: Edit,
) -> Result<(), AllocError>
    requires filled { AreFilled runs.old.items }
    requires is_in { IsIn runs.old.items insertion }
    ensures filled { AreFilled runs.new.items }
    ensures added { OnOk result (edits_of runs.new.items ≡ insert (edits_of runs.old.items) (index_in runs.old.items insertion) edit) }
    ensures stays { OnErr result (edits_of runs.new.items ≡ edits_of runs.old.items) }
{
    match insertion {
        InsertionPoint::In(run, at) => add_at(runs, run, at, edit),
        InsertionPoint::Last => add_last(runs, edit),
    }
}

// Appends the part of a text from `start` to the end of a run of edits, with these edits applied, and returns that end.
fn add_changed(
    made: &mut String,
    text: &str,
    start: usize,
    run: &[Edit],
) -> Result<usize, AllocError>
    requires order { AreInOrder text.now start (map change_of run.now) }
    requires boundary { IsCharBoundary text.now start }
    ensures end { IfOk result (λ end. end ≡ end_of start run.now) }
    ensures boundary { IfOk result (λ end. IsCharBoundary text.now end) }
    ensures made { IfOk result (λ end. (cs : List Change) → string_bytes made.new ++ changed_from end cs text.now
        ≡ string_bytes made.old ++ changed_from start (map change_of run.now ++ cs) text.now) }
{
    let mut at = start;
    for edit in run {
        made.push_str(&text[at..edit.start])?;
        made.push_str(edit.new.as_str())?;
        at = edit.end;
    }
    Ok(at)
}

/// Returns the text with the edits applied.
pub(crate) fn changed(alloc: Global, text: &str, runs: &[Vec<Edit>]) -> Result<String, AllocError>
    requires { AreInOrder text.now 0 (map change_of (edits_of runs.now)) }
    ensures { IfOk result (λ made. string_bytes made ≡ changed_from 0 (map change_of (edits_of runs.now)) text.now) }
{
    let mut made = String::new(alloc);
    let mut at = 0;
    for run in runs {
        at = add_changed(&mut made, text, at, run)?;
    }
    made.push_str(&text[at..])?;
    Ok(made)
}
