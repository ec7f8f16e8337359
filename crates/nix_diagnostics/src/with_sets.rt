//! The `;` that is missing between the set of a `with` and what follows it, which was read as an argument of the set: `with pkgs [ git ];`.

use crate::error_nodes::token_before;
use crate::unexpected::UnexpectedToken;
use SyntaxKind::*;
use rnix::ast::{AstNode, With};
use rnix::{SyntaxKind, SyntaxNode, SyntaxToken};

// The number of nodes that are searched for a `with`, or for a call.
const MAX_NODES: usize = 64;

// Returns whether a node is more likely a set than a function: a name other than `import`, or a call whose argument is a set.
fn is_likely_set(node: &SyntaxNode<'_>) -> bool {
    match node.kind() {
        NODE_IDENT => node.text() != "import",
        NODE_SELECT => true,
        NODE_APPLY => node
            .last_child()
            .is_some_and(|argument| argument.kind() == NODE_ATTR_SET),
        _ => false,
    }
}

// Returns the end of what is called, if its argument is more likely the value for which the set of a `with` is opened.
fn end_of_called(call: &SyntaxNode<'_>) -> Option<usize> {
    let (called, argument) = (call.first_child()?, call.last_child()?);
    let is_value = match argument.kind() {
        NODE_LIST => true,
        NODE_ATTR_SET => is_likely_set(&called),
        _ => false,
    };
    is_value.then_some(called.text_range().end())
}

// Returns the call with which an expression begins, before any operators.
fn first_call<'t>(expression: &SyntaxNode<'t>) -> Option<SyntaxNode<'t>> {
    let mut node = expression.clone();
    for _step in 0..MAX_NODES {
        match node.kind() {
            NODE_APPLY => return Some(node),
            NODE_BIN_OP => {
                let first = node.first_child()?;
                node = first;
            }
            _ => return None,
        }
    }
    None
}

// Returns the innermost `with` around a token.
fn with_around<'t>(token: &SyntaxToken<'t>) -> Option<With<'t>> {
    for node in token.parent_ancestors().take(MAX_NODES) {
        if let Some(with) = With::cast(node) {
            return Some(with);
        }
    }
    None
}

// Returns the end of the set of a `with` whose `;` is missing.
fn end_of_set(with: &With<'_>) -> Option<usize> {
    let call = first_call(with.namespace()?.syntax())?;
    end_of_called(&call)
}

// Returns the `with` that ends before an unexpected token, where this token is in the place of the body or of a `;`, or is the `=` of the next entry.
fn with_before<'t>(unexpected: &UnexpectedToken<'t>) -> Option<With<'t>> {
    let before = unexpected.before.as_ref()?;
    if before.kind() == TOKEN_SEMICOLON && unexpected.expects_expression() {
        return With::cast(before.parent()?);
    }
    if unexpected.expected != Some(TOKEN_SEMICOLON) {
        return None;
    }
    if unexpected.token.kind() != TOKEN_ASSIGN {
        return With::cast(unexpected.parent.clone());
    }
    let start = unexpected.token.text_range().start();
    with_around(before).filter(|with| with.syntax().text_range().end() <= start)
}

/// Returns the end of the set of the `with` before an unexpected token, if a `;` is missing there.
pub fn set_before(unexpected: &UnexpectedToken<'_>) -> Option<usize> {
    end_of_set(&with_before(unexpected)?)
}

/// Returns the end of the set of the `with` at the end of a text, if a `;` is missing there.
pub fn set_at_end(root: &SyntaxNode<'_>) -> Option<usize> {
    let last = root.last_token()?;
    let token = if last.kind().is_trivia() {
        token_before(&last)?
    } else {
        last
    };
    let with = with_around(&token)?;
    if with.body().is_some() {
        return None;
    }
    end_of_set(&with)
}
