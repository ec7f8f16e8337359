//! Strings without interpolations.

ghost use Rattle.std.specs.Prelude.{◌≡◌};
ghost use Rattle.nix_update.specs.NotUpdated.{is_plain_string};

use rnix::ast::Interpol;
use rnix::{SyntaxKind, SyntaxNode};
use rnix_base::child_at;

/// Returns whether an expression is a string without interpolations.
pub fn is_plain_string(node: &SyntaxNode<'_>) -> bool
    ensures { result ≡ is_plain_string node.now }
{
    node.kind() == SyntaxKind::NODE_STRING && child_at::<Interpol<'_>>(node, 0).is_none()
}
