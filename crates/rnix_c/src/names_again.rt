//! The names of a text, from what was stored of its parse.

ghost use Rattle.std.specs.Prelude.{◌≡◌};
ghost use Rattle.rnix_c.specs.Answers.{Answers};
ghost use Rattle.rnix_c.specs.KeptArrays.{HoldParse};
ghost use Rattle.rnix_c.specs.NameCalls.{WritesNames};

use crate::answers::NO_MEMORY;
use crate::compact::{RnixLink, RnixRange};
use crate::kept_arrays::parse_of_kept;
use crate::names::{RnixBinding, RnixReference, write_names};
use nix_scopes::resolve;
use std::alloc::Global;

/// Writes the bindings and the references of a text, and returns the number of bindings, as `rnix_names` does. The arrays `ranges` and `links` and the
/// number of errors are what `rnix_parse_compact` or `rnix_parse_again` wrote for the text.
#[unsafe(no_mangle)]
pub extern "C" fn rnix_names_again(
    alloc: Global,
    text: &[u8],
    ranges: &[RnixRange],
    links: &[RnixLink],
    error_count: u64,
    bindings: &mut [RnixBinding],
    references: &mut [RnixReference],
    reference_count: &mut u64,
) -> i64
    requires { HoldParse text.now ranges.now links.now error_count }
    ensures { Answers text.now result ((bindings.new ≡ bindings.old) × (references.new ≡ references.old) × (reference_count.new ≡ reference_count.old))
        (λ tree _. WritesNames tree result bindings.old bindings.new references.old references.new reference_count.new) }
{
    let read = match parse_of_kept(alloc, text, ranges, links, error_count) {
        Ok(read) => read,
        Err(answer) => return answer,
    };
    let root = read.syntax();
    match resolve(alloc, &root) {
        Ok(names) => write_names(&names, &root, bindings, references, reference_count),
        Err(_) => NO_MEMORY,
    }
}
