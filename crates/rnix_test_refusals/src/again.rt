//! Calls that are made again after a failed allocation. At most one allocation fails in each test, so the second call must succeed.

use rnix::{Parse, Root};
use std::alloc::{AllocError, Global};
use std::process::Abort;

/// Returns an error if an allocation of the test failed.
pub(crate) fn report_refusal(refused: bool) -> Result<(), AllocError> {
    if refused {
        return Err(AllocError);
    }
    Ok(())
}

/// The parse of a text, which is parsed again if the first attempt was refused memory.
pub(crate) fn read_again(
    rt: &impl Abort,
    alloc: Global,
    text: &str,
    refused: &mut bool,
) -> Result<Parse, AllocError> {
    let first = Root::parse(alloc, text);
    if first.is_ok() {
        return first;
    }
    *refused = true;
    let second = Root::parse(alloc, text);
    assert!(rt; second.is_ok());
    second
}
