//! Whether output is colored.

use crate::arguments::Arguments;
use std::env;
use std::io::IsTerminal;

/// Returns whether to color standard output: as `--color` says; by default if it is a terminal and the variable NO_COLOR is unset or empty.
pub fn is_colored(rt: &HostRuntime, arguments: &Arguments) -> bool {
    match arguments.color.as_ref().map(|when| when.as_str()) {
        Some("always") => true,
        Some("never") => false,
        _ => {
            let is_refused = match env::var(rt, "NO_COLOR") {
                Ok(value) => !value.is_empty(),
                Err(_) => false,
            };
            !is_refused && rt.stdout().is_terminal()
        }
    }
}
