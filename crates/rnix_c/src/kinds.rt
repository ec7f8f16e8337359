//! Kinds by number.

ghost use Rattle.std.specs.Prelude.{◌≡◌, ◌≤◌, IfSome, IfNone};
ghost use Rattle.rnix_kinds.specs.SyntaxKind.{discriminant_of, kind_count};
ghost use Rattle.rnix_c.specs.KindCalls.{NamesKind, FindsKind};

use crate::answers::{NONE_SUCH, written};
use rnix::SyntaxKind;

// Returns the kind with this number.
fn kind_at(number: u32) -> Option<SyntaxKind>
    ensures found { IfSome result (λ kind. discriminant_of kind ≡ number) }
    ensures missing { IfNone result (kind_count ≤ number) }
{
    SyntaxKind::from_raw(u16::try_from(number).ok()?)
}

/// Writes the name of a kind, and returns its length in bytes.
#[unsafe(no_mangle)]
pub extern "C" fn rnix_kind_name(kind: u32, room: &mut [u8]) -> i64
    ensures { NamesKind kind result room.old room.new }
{
    match kind_at(kind) {
        Some(kind) => written(kind.name(), room),
        None => NONE_SUCH,
    }
}

/// Returns the number of the kind with this name.
#[unsafe(no_mangle)]
pub extern "C" fn rnix_kind_of_name(name: &[u8]) -> i64
    ensures { FindsKind name.now result }
{
    let Ok(name) = str::from_utf8(name) else {
        return NONE_SUCH;
    };
    match name.parse::<SyntaxKind>() {
        Ok(kind) => i64::from(kind as u32),
        Err(_) => NONE_SUCH,
    }
}
