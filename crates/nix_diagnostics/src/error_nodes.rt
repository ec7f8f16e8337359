//! Finding errors in a tree.

ghost use Rattle.std.specs.Prelude.{◌≡◌, ◌==◌, ◌&&◌, IfSome, Some, None, option_map, if◌then◌else◌};
ghost use Rattle.rnix_green.specs.Range.{bounds_of};
ghost use Rattle.rnix_green.specs.Tree.{item_of, extent_of, IsTokenAt};
ghost use Rattle.rnix_grammar.specs.Fault.{fault_of, same_extent};
ghost use Rattle.rnix_grammar.specs.Ranges.{is_error_node};
ghost use Rattle.rnix.specs.WholeTree.{IsInTree};
ghost use Rattle.nix_diagnostics.specs.FaultNodes.{IsFrom, token_from, if_error, error_at, node_range, error_node};

use rnix::{ParseError, SyntaxKind, SyntaxNode, SyntaxToken, TextRange};

// The number of tokens that are looked at before the token of an error is searched for in the whole tree.
const MAX_STEPS: usize = 32;
// The number of trivia that are skipped to find the previous token.
const MAX_TRIVIA: usize = 64;

// Returns the token that starts at an offset, if it is among the next few tokens from `from` on.
fn near_token<'t>(from: &SyntaxToken<'t>, offset: usize) -> Option<SyntaxToken<'t>>
    requires { IsTokenAt from.now }
    ensures { IfSome result (IsFrom from.now offset) }
{
    let mut token = from.clone();
    for _step in 0..MAX_STEPS {
        let range = token.text_range();
        if range.start() == offset && offset < range.end() {
            return Some(token);
        }
        if range.start() > offset {
            return None;
        }
        let next = token.next_token()?;
        token = next;
    }
    None
}

// Returns a token, if it starts at an offset.
fn if_from<'t>(token: SyntaxToken<'t>, offset: usize) -> Option<SyntaxToken<'t>>
    ensures token { result ≡ (if (item_of token.entry).start == offset then Some token.entry else None) }
    ensures tree { IfSome result (IsInTree token.entry) }
{
    if token.text_range().start() == offset {
        Some(token)
    } else {
        None
    }
}

// Returns the token that starts at an offset, if it is among the first few tokens from the start of a node on.
fn near_node<'t>(earlier: &SyntaxNode<'t>, offset: usize) -> Option<SyntaxToken<'t>>
    ensures { IfSome result (IsFrom earlier.now offset) }
{
    match earlier.first_token() {
        Some(first) => near_token(&first, offset),
        None => None,
    }
}

// Returns the token that starts at an offset.
fn token_from<'t>(root: &SyntaxNode<'t>, offset: usize) -> Option<SyntaxToken<'t>>
    requires { root.now.number ≡ 0 }
    ensures token { result ≡ token_from root.now offset }
    ensures tree { IfSome result (IsInTree root.now) }
{
    match root.token_at_offset(offset).right_biased() {
        Some(token) => if_from(token, offset),
        None => None,
    }
}

// Returns the token that starts at an offset. Looks first from the start of an earlier node on.
fn token_after<'t>(
    root: &SyntaxNode<'t>,
    earlier: &SyntaxNode<'t>,
    offset: usize,
) -> Option<SyntaxToken<'t>>
    requires tree { IsInTree root.now earlier.now }
    requires top { root.now.number ≡ 0 }
    ensures token { result ≡ token_from root.now offset }
    ensures tree { IfSome result (IsInTree root.now) }
{
    match near_node(earlier, offset) {
        Some(token) => Some(token),
        None => token_from(root, offset),
    }
}

// Returns whether a node is an error node with a range.
fn is_error(node: &SyntaxNode<'_>, range: TextRange) -> bool
    ensures { result ≡ (is_error_node (item_of node.now).kind && same_extent (extent_of node.now) (bounds_of range)) }
{
    let own = node.text_range();
    matches!(node.kind(), SyntaxKind::NODE_ERROR)
        && own.start() == range.start()
        && own.end() == range.end()
}

// Returns a node, if it is an error node with a range.
fn if_error<'t>(node: Option<SyntaxNode<'t>>, range: TextRange) -> Option<SyntaxNode<'t>>
    ensures { result ≡ if_error (bounds_of range) node.entry }
{
    match node {
        Some(node) if is_error(&node, range) => Some(node),
        _ => None,
    }
}

// Returns the error node with a range. Looks first from the start of an earlier node on.
fn error_with<'t>(
    root: &SyntaxNode<'t>,
    earlier: &SyntaxNode<'t>,
    range: TextRange,
) -> Option<SyntaxNode<'t>>
    requires tree { IsInTree root.now earlier.now }
    requires top { root.now.number ≡ 0 }
    ensures node { result ≡ error_at root.now (Some (bounds_of range)) }
    ensures tree { IfSome result (IsInTree root.now) }
{
    match token_after(root, earlier, range.start()) {
        Some(token) => if_error(token.parent(), range),
        None => None,
    }
}

// Returns the error node with a range, if a range is given.
fn error_at<'t>(
    root: &SyntaxNode<'t>,
    earlier: &SyntaxNode<'t>,
    range: Option<TextRange>,
) -> Option<SyntaxNode<'t>>
    requires tree { IsInTree root.now earlier.now }
    requires top { root.now.number ≡ 0 }
    ensures node { result ≡ error_at root.now (option_map bounds_of range) }
    ensures tree { IfSome result (IsInTree root.now) }
{
    match range {
        Some(range) => error_with(root, earlier, range),
        None => None,
    }
}

// Returns the range of an error, unless the error is about a repeated name, which has no error node.
fn node_range(error: &ParseError) -> Option<TextRange>
    ensures { option_map bounds_of result ≡ node_range (fault_of error.now) }
{
    match error {
        ParseError::DuplicatedArgs(..) => None,
        _ => error.range(),
    }
}

/// Returns the error node of an error, if it has one. Looks first from the start of `earlier` on, the node of an earlier error, and replaces it.
pub fn error_node<'t>(
    root: &SyntaxNode<'t>,
    earlier: &mut SyntaxNode<'t>,
    error: &ParseError,
) -> Option<SyntaxNode<'t>>
    requires tree { IsInTree root.now earlier.old }
    requires top { root.now.number ≡ 0 }
    ensures node { result ≡ error_node root.now (fault_of error.now) }
    ensures earlier { IsInTree root.now earlier.new }
{
    match error_at(root, earlier, node_range(error)) {
        Some(node) => {
            *earlier = node.clone();
            Some(node)
        }
        None => None,
    }
}

/// Returns the previous token other than trivia.
pub fn token_before<'t>(token: &SyntaxToken<'t>) -> Option<SyntaxToken<'t>> {
    let mut before = token.prev_token();
    for _step in 0..MAX_TRIVIA {
        match before {
            Some(trivia) if trivia.kind().is_trivia() => before = trivia.prev_token(),
            _ => break,
        }
    }
    before.filter(|token| !token.kind().is_trivia())
}
