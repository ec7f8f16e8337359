//! What the layout of a node depends on, apart from its width: how many elements it has, and how it begins.

use crate::frame::Place;
use crate::spacing::Child;
use rnix::{SyntaxKind, SyntaxNode};
use rnix_base::first_binary;

// The largest number of elements of a list that stays on one line as an argument.
const FEW: usize = 6;

// Returns whether nodes of a kind are sets or lists.
fn is_bracketed(kind: SyntaxKind) -> bool {
    matches!(kind, SyntaxKind::NODE_ATTR_SET | SyntaxKind::NODE_LIST)
}

// Returns whether a node is a set or a list with something inside, or a string in `''` with several lines.
fn is_block(node: &SyntaxNode<'_>) -> bool {
    if is_bracketed(node.kind()) {
        return node.first_child().is_some();
    }
    let text = node.text();
    node.kind() == SyntaxKind::NODE_STRING && text.starts_with("''") && text.contains('\n')
}

// Returns whether a node is such a block, perhaps after a `with`.
fn is_absorbed(node: &SyntaxNode<'_>) -> bool {
    if node.kind() != SyntaxKind::NODE_WITH {
        return is_block(node);
    }
    match node.children().nth(1) {
        Some(body) => is_block(&body),
        None => false,
    }
}

// Returns whether a function has a name as its parameter.
fn is_named_lambda(node: &SyntaxNode<'_>) -> bool {
    match node.first_child() {
        Some(parameter) => parameter.kind() == SyntaxKind::NODE_IDENT_PARAM,
        None => false,
    }
}

// Returns whether an operation, or the one of the same operator at its start, begins with a block.
fn begins_with_block(node: &SyntaxNode<'_>) -> bool {
    let operator = first_binary(node);
    let mut operand = node.first_child();
    for _ in 0..node.inside_count() {
        operand = match operand {
            Some(inner) if inner.kind() == SyntaxKind::NODE_BIN_OP => {
                if first_binary(&inner) != operator {
                    return false;
                }
                inner.first_child()
            }
            Some(first) => return is_block(&first),
            None => return false,
        };
    }
    false
}

// Returns whether an element of a list or a part of a call is a name, a number, a string on one line, a path or a selection from a name.
fn is_simple(node: &SyntaxNode<'_>) -> bool {
    match node.kind() {
        SyntaxKind::NODE_STRING => !node.text().contains('\n'),
        SyntaxKind::NODE_SELECT => match node.first_child() {
            Some(set) => set.kind() == SyntaxKind::NODE_IDENT,
            None => false,
        },
        kind => matches!(
            kind,
            SyntaxKind::NODE_IDENT
                | SyntaxKind::NODE_LITERAL
                | SyntaxKind::NODE_PATH_ABS
                | SyntaxKind::NODE_PATH_HOME
                | SyntaxKind::NODE_PATH_REL
                | SyntaxKind::NODE_PATH_SEARCH
        ),
    }
}

// Returns whether a node is a list of few elements, all of which are simple, before the last argument of a call.
fn is_short_list(node: &SyntaxNode<'_>, place: Place) -> bool {
    if node.kind() != SyntaxKind::NODE_LIST || place != Place::Argument {
        return false;
    }
    let mut count = 0usize;
    for element in node.children() {
        count = count.saturating_add(1);
        if count > FEW || !is_simple(&element) {
            return false;
        }
    }
    true
}

// Returns whether a set has several entries, or stands after `=` and has one that is not an `inherit`.
fn is_long_set(node: &SyntaxNode<'_>, place: Place) -> bool {
    if node.children().nth(1).is_some() {
        return true;
    }
    match node.first_child() {
        Some(entry) => place == Place::Value && entry.kind() != SyntaxKind::NODE_INHERIT,
        None => false,
    }
}

// Returns whether a pattern has more than two arguments, or one with a default.
fn is_long_pattern(node: &SyntaxNode<'_>) -> bool {
    let mut count = 0usize;
    for entry in node.children() {
        if entry.kind() == SyntaxKind::NODE_PAT_ENTRY {
            count = count.saturating_add(1);
            if count > 2 || entry.children().nth(1).is_some() {
                return true;
            }
        }
    }
    false
}

// Returns whether a node has a line for each of its elements, however short they are.
fn is_expanded(node: &SyntaxNode<'_>, place: Place) -> bool {
    match node.kind() {
        SyntaxKind::NODE_LIST => node.children().nth(1).is_some(),
        SyntaxKind::NODE_ATTR_SET => is_long_set(node, place),
        SyntaxKind::NODE_PATTERN => is_long_pattern(node),
        _ => false,
    }
}

// Returns whether the last argument of a call is simple.
fn has_simple_argument(call: &SyntaxNode<'_>) -> bool {
    match call.children().nth(1) {
        Some(argument) => is_simple(&argument),
        None => false,
    }
}

// Returns whether a call that is no function of another one is simple in all its parts.
fn is_plain_call(call: &SyntaxNode<'_>, place: Place) -> bool {
    if call.kind() != SyntaxKind::NODE_APPLY
        || place == Place::Callee
        || !has_simple_argument(call)
    {
        return false;
    }
    let mut callee = call.first_child();
    for _ in 0..call.inside_count() {
        callee = match callee {
            Some(inner) if inner.kind() == SyntaxKind::NODE_APPLY => {
                if !has_simple_argument(&inner) {
                    return false;
                }
                inner.first_child()
            }
            Some(function) => return is_simple(&function),
            None => return false,
        };
    }
    false
}

// Returns whether the last argument of a call is a list.
fn ends_with_list(call: &SyntaxNode<'_>) -> bool {
    match call.children().nth(1) {
        Some(argument) => argument.kind() == SyntaxKind::NODE_LIST,
        None => false,
    }
}

// Returns whether the last two arguments of a call are lists.
fn is_paired(call: &SyntaxNode<'_>) -> bool {
    match call.first_child() {
        Some(callee) => {
            callee.kind() == SyntaxKind::NODE_APPLY
                && ends_with_list(&callee)
                && ends_with_list(call)
        }
        None => false,
    }
}

/// Describes a token, or a node that is written as it is.
pub fn plain_child(kind: SyntaxKind) -> Child {
    Child {
        kind,
        is_empty: false,
        is_named_lambda: false,
        is_absorbed: false,
        is_expanded: false,
        is_short: false,
        is_hung: false,
        is_paired: false,
        is_plain: false,
    }
}

/// Describes a string, a path or a name.
pub fn atom_child(node: &SyntaxNode<'_>) -> Child {
    Child {
        is_absorbed: is_block(node),
        ..plain_child(node.kind())
    }
}

/// Describes a node that the walk is about to enter. Looks at what is inside only if that matters.
pub fn child_of(node: &SyntaxNode<'_>, place: Place) -> Child {
    let kind = node.kind();
    let is_short = is_short_list(node, place);
    Child {
        kind,
        is_empty: is_bracketed(kind) && node.first_child().is_none(),
        is_named_lambda: kind == SyntaxKind::NODE_LAMBDA && is_named_lambda(node),
        is_absorbed: is_absorbed(node),
        is_expanded: !is_short && is_expanded(node, place),
        is_short,
        is_hung: kind == SyntaxKind::NODE_BIN_OP
            && place == Place::Value
            && begins_with_block(node),
        is_paired: kind == SyntaxKind::NODE_APPLY && is_paired(node),
        is_plain: is_plain_call(node, place),
    }
}
