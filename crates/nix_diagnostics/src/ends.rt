//! How a text ends, and what is still open there.

ghost use Rattle.std.specs.Prelude.{◌≡◌, map};
ghost use Rattle.rnix_green.specs.Walk.{elements_of};
ghost use Rattle.rnix_grammar.specs.Fault.{fault_of};
ghost use Rattle.nix_diagnostics.specs.Brackets.{closes};
ghost use Rattle.nix_diagnostics.specs.Locations.{end_of_items};
ghost use Rattle.nix_diagnostics.specs.Ends.{passes, is_of_string, is_at_end, ends_early, reaches, first_opening, lost_from, is_from};

use crate::openings::{closes, opens};
use SyntaxKind::*;
use rnix::{NodeOrToken, ParseError, SyntaxKind, SyntaxNode};

// Returns whether a token begins a string or is in one.
fn is_of_string(kind: SyntaxKind) -> bool
    ensures { result ≡ is_of_string kind }
{
    matches!(kind, TOKEN_STRING_START | TOKEN_STRING_CONTENT)
}

/// Returns whether a text ends inside a string, given the kind of its last token other than trivia.
pub fn ends_in_string(last: Option<SyntaxKind>) -> bool
    ensures { result ≡ passes is_of_string last }
{
    match last {
        Some(kind) => is_of_string(kind),
        None => false,
    }
}

/// Returns whether a text ends with a token that closes something, given the kind of its last token other than trivia.
pub fn ends_closed(last: Option<SyntaxKind>) -> bool
    ensures { result ≡ passes closes last }
{
    match last {
        Some(kind) => closes(kind),
        None => false,
    }
}

// Returns whether an error is at the end of the text.
fn is_at_end(error: &ParseError) -> bool
    ensures { result ≡ is_at_end (fault_of error.now) }
{
    matches!(
        error,
        ParseError::UnexpectedEOF | ParseError::UnexpectedEOFWanted(_)
    )
}

// Returns whether a text ends too early, given its errors.
fn ends_early(errors: &[ParseError]) -> bool
    ensures { result ≡ ends_early (map fault_of errors.now) }
{
    for error in errors {
        if is_at_end(error) {
            return true;
        }
    }
    false
}

// Returns whether a node is given and ends at an offset or after it.
fn reaches(node: &Option<SyntaxNode<'_>>, end: usize) -> bool
    ensures { result ≡ reaches end node.now }
{
    match node {
        Some(node) => end <= node.text_range().end(),
        None => false,
    }
}

// Returns the start of the first token that opens something in a node that ends at an offset or after it.
fn first_opening(root: &SyntaxNode<'_>, end: usize) -> Option<usize>
    ensures { result ≡ first_opening end (elements_of root.now) }
{
    for element in root.descendants_with_tokens() {
        if let NodeOrToken::Token(token) = element {
            if opens(token.kind()) && reaches(&token.parent(), end) {
                return Some(token.text_range().start());
            }
        }
    }
    None
}

/// Returns the offset from which errors follow from something that is never closed, if the text ends too early.
pub fn lost_from(root: &SyntaxNode<'_>, errors: &[ParseError], end: usize) -> Option<usize>
    requires { end ≡ end_of_items root.now }
    ensures { result ≡ lost_from root.now (map fault_of errors.now) }
{
    if ends_early(errors) {
        first_opening(root, end)
    } else {
        None
    }
}

/// Returns whether `start` is given, and `offset` is not before it.
pub fn is_from(start: Option<usize>, offset: usize) -> bool
    ensures { result ≡ is_from start offset }
{
    match start {
        Some(start) => start <= offset,
        None => false,
    }
}
