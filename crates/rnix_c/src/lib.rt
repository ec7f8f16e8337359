//! The parser for callers that are not written in Rattle. `bindings/rnix.h` has these functions as C calls them.
#![tactic(auto)]

ghost use Rattle.std.specs.Prelude.{◌≡◌};

mod again;
mod all_strings;
mod analysis;
mod answers;
mod codes;
mod compact;
mod diagnostics;
mod elements;
mod errors;
mod fixes;
mod formatting;
mod kept_arrays;
mod kinds;
mod messages;
mod names;
mod names_again;
mod positions;
mod strings;
mod tokens;
mod tree;

/// Returns the version of this interface. It changes whenever a function, a struct or the number of a kind changes.
#[unsafe(no_mangle)]
pub extern "C" fn rnix_version() -> u32
    ensures { result ≡ 7 }
{
    7
}
