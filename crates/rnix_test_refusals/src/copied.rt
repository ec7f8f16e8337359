//! Copies that are made again after memory was refused.

use crate::again::{read_again, report_refusal};
use crate::compared::prints;
use crate::parsing::EMPTY_PARENTHESIS;
use rnix::Parse;
use std::alloc::AllocError;
use std::process::Abort;

// A copy of a parse, made again if memory was refused.
fn copy_again(rt: &impl Abort, read: &Parse, refused: &mut bool) -> Result<Parse, AllocError> {
    let first = read.try_clone();
    if first.is_ok() {
        return first;
    }
    *refused = true;
    let second = read.try_clone();
    assert!(rt; second.is_ok());
    second
}

#[test]
fn what_was_read_is_copied_again(rt: HostRuntime) -> Result<(), AllocError> {
    let mut refused = false;
    let read = read_again(&rt, rt.alloc(), "()", &mut refused)?;
    let copy = copy_again(&rt, &read, &mut refused)?;
    assert!(rt; prints(&read, EMPTY_PARENTHESIS) && prints(&copy, EMPTY_PARENTHESIS));
    report_refusal(refused)
}
