//! The brackets of two nodes, compared.

ghost use Rattle.std.specs.Prelude.{◌≡◌, ◌<◌, ◌+◌, ◌^◌, length, true, IsTrue};
ghost use Rattle.rnix_green.specs.Tree.{items_of, item};
ghost use Rattle.rnix_proof_reparse.specs.Bracketed.{precedes_brace};
ghost use Rattle.rnix_reparse.specs.OwnBrackets.{HasBrackets, AreSameToken, HaveSameBraceAt, HasSameBrackets};

use crate::brackets::{has_brackets, is_same_kind};
use rnix_green::GreenNode;
use rnix_kinds::SyntaxKind;

// Returns whether two elements are the same token.
fn are_same_token(green: &GreenNode, number: usize, other: &GreenNode, twin: usize) -> bool
    requires there { number < length (items_of green.now) }
    requires twin_there { twin < length (items_of other.now) }
    ensures { IsTrue result → AreSameToken green.now number other.now twin }
{
    let (old, new) = (green.element(number), other.element(twin));
    !old.is_node
        && !new.is_node
        && is_same_kind(old.kind, new.kind)
        && green.text_at(number) == other.text_at(twin)
}

// Returns whether a token is `rec` or `let`.
fn precedes_brace(kind: SyntaxKind) -> bool
    ensures { result ≡ precedes_brace kind }
{
    matches!(kind, SyntaxKind::TOKEN_REC | SyntaxKind::TOKEN_LET)
}

// Returns whether two trees, from two elements on, have the same trivia and then the same `{`.
fn have_same_brace(green: &GreenNode, number: usize, other: &GreenNode, twin: usize) -> bool
    ensures { IsTrue result → HaveSameBraceAt green.now other.now number twin }
{
    let (mut old, mut new) = (number, twin);
    while old < green.element_count() && new < other.element_count() {
        if !are_same_token(green, old, other, new) {
            return false;
        }
        let kind = green.element(old).kind;
        if is_same_kind(kind, SyntaxKind::TOKEN_L_BRACE) {
            return true;
        }
        if !kind.is_trivia() {
            return false;
        }
        old += 1;
        new += 1;
    }
    false
}

// Returns whether a node, unless it begins with its bracket, has the same tokens up to the `{` as the only child of another root.
fn have_same_heads(green: &GreenNode, number: usize, other: &GreenNode) -> bool
    requires there { number + 1 < length (items_of green.now) }
    requires fits { number + 2 < 2 ^ 64 }
    ensures { IsTrue result → precedes_brace (item green.now (number + 1)).kind ≡ true → HaveSameBraceAt green.now other.now (number + 2) 3 }
{
    !precedes_brace(green.element(number + 1).kind) || have_same_brace(green, number + 2, other, 3)
}

/// Returns whether the only child of a root has the kind and the brackets of a node, and the same tokens before the opening one.
pub(crate) fn has_same_brackets(green: &GreenNode, number: usize, other: &GreenNode) -> bool
    requires { HasBrackets green.now number }
    ensures { IsTrue result → HasSameBrackets green.now number other.now }
{
    if !other.has_only_child() {
        return false;
    }
    if !has_brackets(other, 1) {
        return false;
    }
    let (node, child) = (green.element(number), other.element(1));
    is_same_kind(node.kind, child.kind)
        && are_same_token(green, number + 1, other, 2)
        && are_same_token(green, number + node.below, other, 1 + child.below)
        && have_same_heads(green, number, other)
}
