//! Codes of diagnostics by number.

ghost use Rattle.std.specs.Prelude.{◌≡◌, slice_get};
ghost use Rattle.nix_diagnostics.specs.Codes.{all_codes};
ghost use Rattle.rnix_c.specs.Codes.{NamesCode};

use crate::answers::{NONE_SUCH, written};
use nix_diagnostics::{CODES, Code};

// Returns the code with this number.
fn code_at(number: u32) -> Option<Code>
    ensures { result ≡ slice_get all_codes number }
{
    CODES.get(number as usize).copied()
}

/// Writes the name of a code, such as `syntax-error`, and returns its length in bytes.
#[unsafe(no_mangle)]
pub extern "C" fn rnix_code_name(code: u32, room: &mut [u8]) -> i64
    ensures { NamesCode code result room.old room.new }
{
    match code_at(code) {
        Some(code) => written(code.name(), room),
        None => NONE_SUCH,
    }
}
