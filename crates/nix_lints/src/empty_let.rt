//! Each `let` without bindings.

ghost use Rattle.std.specs.Prelude.{◌≡◌, option_map};
ghost use Rattle.nix_lints.specs.Found.{found_of};
ghost use Rattle.nix_lints.specs.EmptyLet.{empty_let};

use crate::finding::Finding;
use crate::nodes::{expression, removal};
use nix_diagnostics::Code;
use rnix::SyntaxNode;
use rnix::ast::Entry;
use rnix_base::child_at;

/// Returns the finding on a `let`, if it has no bindings.
pub fn empty_let(node: &SyntaxNode<'_>) -> Option<Finding>
    ensures { option_map found_of result ≡ empty_let node.now }
{
    let is_empty = child_at::<Entry<'_>>(node, 0).is_none();
    Finding::when(
        is_empty,
        Code::EmptyLet,
        node,
        removal(node, &expression(node, 0)),
    )
}
