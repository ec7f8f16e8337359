//! Nodes that end with a bracket of their own, and begin with one, or with `rec` or `let` before one.

ghost use Rattle.std.specs.Prelude.{◌≡◌, ◌<◌, length, Some, IsTrue, IfSome};
ghost use Rattle.rnix_green.specs.Tree.{items_of, item};
ghost use Rattle.rnix_proof_reparse.specs.Bracketed.{IsBracketed};
ghost use Rattle.rnix_reparse.specs.OwnBrackets.{IsTokenOf, HasBrackets};

use rnix_green::GreenNode;
use rnix_kinds::SyntaxKind;

// Returns the kind of the nodes that begin with a token of a kind and end with a bracket of their own, and the kind of that bracket.
fn bracketed_by(first: SyntaxKind) -> Option<(SyntaxKind, SyntaxKind)>
    ensures { IfSome result (λ pair. IsBracketed pair.0 first pair.1) }
{
    match first {
        SyntaxKind::TOKEN_L_BRACE => Some((SyntaxKind::NODE_ATTR_SET, SyntaxKind::TOKEN_R_BRACE)),
        SyntaxKind::TOKEN_REC => Some((SyntaxKind::NODE_ATTR_SET, SyntaxKind::TOKEN_R_BRACE)),
        SyntaxKind::TOKEN_LET => Some((SyntaxKind::NODE_LEGACY_LET, SyntaxKind::TOKEN_R_BRACE)),
        SyntaxKind::TOKEN_L_BRACK => Some((SyntaxKind::NODE_LIST, SyntaxKind::TOKEN_R_BRACK)),
        SyntaxKind::TOKEN_L_PAREN => Some((SyntaxKind::NODE_PAREN, SyntaxKind::TOKEN_R_PAREN)),
        SyntaxKind::TOKEN_STRING_START => {
            Some((SyntaxKind::NODE_STRING, SyntaxKind::TOKEN_STRING_END))
        }
        _ => None,
    }
}

// Returns whether two kinds are equal.
pub(crate) fn is_same_kind(a: SyntaxKind, b: SyntaxKind) -> bool
    ensures { IsTrue result → a ≡ b }
{
    a == b
}

// Returns whether an element is a token of a kind.
fn is_token(green: &GreenNode, number: usize, kind: SyntaxKind) -> bool
    requires { number < length (items_of green.now) }
    ensures { IsTrue result → IsTokenOf green.now number kind }
{
    let element = green.element(number);
    !element.is_node && is_same_kind(element.kind, kind)
}

// Returns whether an element has the parent with a given number.
fn is_child(green: &GreenNode, number: usize, parent: usize) -> bool
    requires { number < length (items_of green.now) }
    ensures { IsTrue result → (item green.now number).parent ≡ Some parent }
{
    match green.element(number).parent {
        Some(found) => found == parent,
        None => false,
    }
}

/// Returns whether an element is a list, a set, a `let { }`, parentheses or a string.
pub(crate) fn has_brackets(green: &GreenNode, number: usize) -> bool
    requires { number < length (items_of green.now) }
    ensures { IsTrue result → HasBrackets green.now number }
{
    let element = green.element(number);
    if !element.is_node || element.below < 2 {
        return false;
    }
    let (first, last) = (green.element(number + 1), number + element.below);
    match bracketed_by(first.kind) {
        Some((kind, closing)) => {
            !first.is_node
                && is_same_kind(element.kind, kind)
                && is_token(green, last, closing)
                && is_child(green, last, number)
        }
        None => false,
    }
}
