//! Runs that were scanned ahead, so that no byte is scanned twice.

ghost use Rattle.std.specs.Prelude.{◌≡◌};
ghost use Rattle.std.specs.List.{prefix_len};
ghost use Rattle.rnix_kinds.specs.Lexical.Classes.{class_test};
ghost use Rattle.rnix_kinds.specs.Lexical.Ahead.{IsRunEnd};

use super::text::{Class, run_end};

/// The ends of the runs that were scanned last, each as the length of the text after it.
#[derive(Clone, Copy)]
pub struct Ahead {
    pub step: usize,
    pub scheme: usize,
    pub angle: usize,
}

/// Returns the length of the run at the start of the text, which may have been scanned before.
pub fn looked(text: &str, remaining: &mut usize, class: Class) -> usize
    requires { IsRunEnd class remaining.old text.now }
    ensures len { result ≡ prefix_len (class_test class) text.now }
    ensures remaining { IsRunEnd class remaining.new text.now }
{
    if *remaining >= text.len() {
        *remaining = text.len() - run_end(text, 0, class);
    }
    text.len() - *remaining
}
