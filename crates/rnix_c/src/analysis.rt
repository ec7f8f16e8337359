//! The names and the diagnostics of a text, from what was stored of its parse.

ghost use Rattle.std.specs.Prelude.{◌≡◌, pos};
ghost use Rattle.rnix_c.specs.Answers.{Answers};
ghost use Rattle.rnix_c.specs.Diagnostics.{WritesDiagnostics};
ghost use Rattle.rnix_c.specs.KeptArrays.{HoldParse};
ghost use Rattle.rnix_c.specs.NameCalls.{WritesNames};

use crate::answers::NO_MEMORY;
use crate::compact::{RnixLink, RnixRange};
use crate::diagnostics::{RnixDiagnostic, RnixNote, described, write_said};
use crate::kept_arrays::parse_of_kept;
use crate::names::{RnixBinding, RnixReference, write_names};
use nix_scopes::resolve;
use std::alloc::Global;

/// Writes the bindings and the references of a text, its diagnostics and their notes, the texts of both, and the numbers of all but the bindings, which is
/// returned. The arrays `ranges` and `links` and the number of errors are what `rnix_parse_compact` or `rnix_parse_again` wrote for the text.
#[unsafe(no_mangle)]
pub extern "C" fn rnix_analysis(
    alloc: Global,
    text: &[u8],
    ranges: &[RnixRange],
    links: &[RnixLink],
    error_count: u64,
    bindings: &mut [RnixBinding],
    references: &mut [RnixReference],
    reference_count: &mut u64,
    room: &mut [RnixDiagnostic],
    diagnostic_count: &mut u64,
    notes: &mut [RnixNote],
    note_count: &mut u64,
    buffer: &mut [u8],
    buffer_len: &mut u64,
) -> i64
    requires { HoldParse text.now ranges.now links.now error_count }
    ensures { Answers text.now result
        ((bindings.new ≡ bindings.old) × (references.new ≡ references.old) × (reference_count.new ≡ reference_count.old)
        × (room.new ≡ room.old) × (diagnostic_count.new ≡ diagnostic_count.old) × (notes.new ≡ notes.old) × (note_count.new ≡ note_count.old)
        × (buffer.new ≡ buffer.old) × (buffer_len.new ≡ buffer_len.old))
        (λ tree faults. WritesNames tree result bindings.old bindings.new references.old references.new reference_count.new
        × WritesDiagnostics text.now tree faults (pos diagnostic_count.new)
        room.old room.new notes.old notes.new note_count.new buffer.old buffer.new buffer_len.new) }
{
    let read = match parse_of_kept(alloc, text, ranges, links, error_count) {
        Ok(read) => read,
        Err(answer) => return answer,
    };
    let root = read.syntax();
    let Ok(names) = resolve(alloc, &root) else {
        return NO_MEMORY;
    };
    match described(alloc, text, &read) {
        Ok(made) => {
            write_said(&made, room, notes, note_count, buffer, buffer_len);
            *diagnostic_count = made.records.len() as u64;
            write_names(&names, &root, bindings, references, reference_count)
        }
        Err(_) => NO_MEMORY,
    }
}
