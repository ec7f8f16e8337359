//! Paths that begin with a name, as in `timeZone = Europe/Berlin;`, and may be meant as strings.

ghost use Rattle.std.specs.Prelude.{◌≡◌, option_map};
ghost use Rattle.nix_lints.specs.Found.{found_of};
ghost use Rattle.nix_lints.specs.BarePath.{begins_with_point, bare_path};

use crate::finding::Finding;
use nix_diagnostics::Code;
use rnix::SyntaxNode;

// Returns whether a text begins with a point.
fn begins_with_point(text: &[u8]) -> bool
    ensures { result ≡ begins_with_point text.now }
{
    match text.first() {
        Some(byte) => *byte == b'.',
        None => false,
    }
}

/// Returns the finding on a relative path, if it begins with a name.
pub fn bare_path(path: &SyntaxNode<'_>) -> Option<Finding>
    ensures { option_map found_of result ≡ bare_path path.now }
{
    let is_bare = !begins_with_point(path.text().as_bytes());
    Finding::when(is_bare, Code::BarePath, path, None)
}
