//! Parentheses that change nothing.

ghost use Rattle.std.specs.Prelude.{◌≡◌, option_map};
ghost use Rattle.nix_lints.specs.Found.{found_of};
ghost use Rattle.nix_lints.specs.Parentheses.{is_closed, takes_any, holds_closed, is_taken, needless_parentheses};

use crate::finding::Finding;
use crate::nodes::expression;
use SyntaxKind::*;
use nix_diagnostics::{Code, Replacement};
use rnix::{SyntaxKind, SyntaxNode, SyntaxToken, TextRange};

// Returns whether an expression of a kind is the same with and without parentheses, wherever it stands.
fn is_closed(kind: SyntaxKind) -> bool
    ensures { result ≡ is_closed kind }
{
    matches!(
        kind,
        NODE_IDENT | NODE_STRING | NODE_LIST | NODE_ATTR_SET | NODE_PAREN
    )
}

// Returns whether any expression may stand right below a node of a kind without parentheses.
fn takes_any(kind: SyntaxKind) -> bool
    ensures { result ≡ takes_any kind }
{
    matches!(
        kind,
        NODE_ROOT
            | NODE_PAREN
            | NODE_ATTRPATH_VALUE
            | NODE_LET_IN
            | NODE_WITH
            | NODE_ASSERT
            | NODE_IF_ELSE
            | NODE_LAMBDA
            | NODE_PAT_ENTRY
            | NODE_INTERPOL
            | NODE_DYNAMIC
            | NODE_INHERIT_FROM
    )
}

// Returns whether an expression that needs no parentheses anywhere is inside parentheses.
fn holds_closed(parentheses: &SyntaxNode<'_>) -> bool
    ensures { result ≡ holds_closed parentheses.now }
{
    match expression(parentheses, 0) {
        Some(inner) => is_closed(inner.kind()),
        None => false,
    }
}

// Returns whether parentheses stand where any expression may.
fn is_taken(parentheses: &SyntaxNode<'_>) -> bool
    ensures { result ≡ is_taken parentheses.now }
{
    match parentheses.parent() {
        Some(parent) => takes_any(parent.kind()),
        None => false,
    }
}

// Returns whether a token keeps its neighbours apart, so that they need no space.
fn keeps_apart(kind: SyntaxKind) -> bool {
    matches!(
        kind,
        TOKEN_WHITESPACE
            | TOKEN_COMMENT
            | TOKEN_L_PAREN
            | TOKEN_R_PAREN
            | TOKEN_L_BRACK
            | TOKEN_R_BRACK
            | TOKEN_INTERPOL_START
            | TOKEN_INTERPOL_END
            | TOKEN_SEMICOLON
            | TOKEN_COMMA
    )
}

// Returns the space that is written beside a token in place of a parenthesis.
fn space_beside(token: Option<SyntaxToken<'_>>) -> &'static str {
    match token {
        Some(token) if !keeps_apart(token.kind()) => " ",
        _ => "",
    }
}

// Returns the replacement of parentheses by what is inside them.
fn without(parentheses: &SyntaxNode<'_>) -> Option<Replacement> {
    let (first, last) = (parentheses.first_token()?, parentheses.last_token()?);
    let start = first.text_range().end();
    Some(Replacement {
        range: parentheses.text_range(),
        before: space_beside(first.prev_token()),
        kept: TextRange::empty(start).cover_offset(last.text_range().start()),
        after: space_beside(last.next_token()),
    })
}

/// Returns the finding on parentheses, if they change nothing.
pub fn needless_parentheses(parentheses: &SyntaxNode<'_>) -> Option<Finding>
    ensures { option_map found_of result ≡ needless_parentheses parentheses.now }
{
    let is_needless = holds_closed(parentheses) || is_taken(parentheses);
    let replacement = if is_needless {
        without(parentheses)
    } else {
        None
    };
    Finding::when(
        is_needless,
        Code::NeedlessParentheses,
        parentheses,
        replacement,
    )
}
