//! Where errors are shown.

ghost use Rattle.std.specs.Prelude.{◌≡◌, option_map, false};
ghost use Rattle.rnix_green.specs.Range.{bounds_of};
ghost use Rattle.rnix_grammar.specs.Fault.{fault_of};
ghost use Rattle.nix_diagnostics.specs.Locations.{end_of_items, error_range, own_range, location_of};
ghost use Rattle.nix_diagnostics.specs.TokenErrors.{is_repeated_name};

use rnix::{ParseError, SyntaxKind, SyntaxNode, TextRange};

// Returns the range of the first error node that ends at an offset: it holds the expressions that are nested too deep.
fn too_deep(root: &SyntaxNode<'_>, end: usize) -> Option<TextRange>
    ensures { option_map bounds_of result ≡ error_range end root.now }
{
    for node in root.descendants() {
        if node.kind() == SyntaxKind::NODE_ERROR && node.text_range().end() == end {
            return Some(node.text_range());
        }
    }
    None
}

// Returns the range of an error, or `None` if something is missing at the end.
fn own_range(error: &ParseError, root: &SyntaxNode<'_>, end: usize) -> Option<TextRange>
    ensures { end ≡ end_of_items root.now → option_map bounds_of result ≡ own_range root.now (fault_of error.now) }
{
    match error {
        ParseError::RecursionLimitExceeded => too_deep(root, end),
        _ => error.range(),
    }
}

/// Returns where an error is shown: at its range, or else at the end of the last token other than trivia, which an error about a repeated name does not need.
pub fn location_of(error: &ParseError, root: &SyntaxNode<'_>, end: usize) -> TextRange
    ensures { (is_repeated_name (fault_of error.now) ≡ false → end ≡ end_of_items root.now) →
        bounds_of result ≡ location_of root.now (fault_of error.now) }
{
    match error {
        ParseError::DuplicatedArgs(range, _) => *range,
        _ => own_range(error, root, end).unwrap_or(TextRange::empty(end)),
    }
}
