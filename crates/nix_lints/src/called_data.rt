//! Data that is called like a function, as in `version = 1.2.3;`, which is `1.2` called with `.3`.

ghost use Rattle.std.specs.Prelude.{◌≡◌, option_map};
ghost use Rattle.nix_lints.specs.Found.{found_of};
ghost use Rattle.nix_lints.specs.CalledData.{is_data, is_called_data, called_data};

use crate::finding::Finding;
use crate::nodes::expression;
use SyntaxKind::*;
use nix_diagnostics::Code;
use rnix::{SyntaxKind, SyntaxNode};

// Returns whether a node of a kind is a number, an address, a string, a path or a list.
fn is_data(kind: SyntaxKind) -> bool
    ensures { result ≡ is_data kind }
{
    matches!(
        kind,
        NODE_LITERAL
            | NODE_STRING
            | NODE_LIST
            | NODE_PATH_ABS
            | NODE_PATH_HOME
            | NODE_PATH_REL
            | NODE_PATH_SEARCH
    )
}

// Returns whether a call calls data.
fn is_called_data(call: &SyntaxNode<'_>) -> bool
    ensures { result ≡ is_called_data call.now }
{
    match expression(call, 0) {
        Some(function) => is_data(function.kind()),
        None => false,
    }
}

/// Returns the finding on a call, if it calls data.
pub fn called_data(call: &SyntaxNode<'_>) -> Option<Finding>
    ensures { option_map found_of result ≡ called_data call.now }
{
    Finding::when(is_called_data(call), Code::CalledData, call, None)
}
