//! The rest of a node's line.

ghost use Rattle.std.specs.Prelude.{◌≡◌, ◌<◌, ◌^◌, length};
ghost use Rattle.rnix_green.specs.Tree.{item_of};
ghost use Rattle.rnix_tree.specs.Spots.{spot_of};
ghost use Rattle.rnix_edit.specs.Line.{second_line, token_part, part_of, siblings_after, rest_of_line, token_start, closing_start};

use rnix::{
    Direction, NodeOrToken, SiblingsWithTokens, SyntaxElement, SyntaxKind, SyntaxNode, SyntaxToken,
};

/// The rest of a node's line, if it has only one-line comments.
#[derive(Clone, Copy)]
pub struct RestOfLine {
    /// The start of the next line.
    pub next_line: usize,
    /// The number of comments.
    pub comments: usize,
    /// The end of the last comment, or of the node if there is none.
    pub end: usize,
}

/// How an element affects the rest of a line.
#[derive(Clone, Copy)]
pub enum Part {
    /// White space within the line.
    Blanks,
    /// White space with a line feed, and the start of the next line.
    LineBreak(usize),
    /// A comment on one line.
    Comment,
    Other,
}

// Returns the start of a token's second line, if it has one.
fn second_line(token: &SyntaxToken<'_>) -> Option<usize>
    ensures { result ≡ second_line token.now }
{
    let (_, rest) = token.text().split_once('\n')?;
    Some(token.text_range().end().saturating_sub(rest.len()))
}

// Returns how a token affects the rest of its line, given its kind and the start of its second line.
fn token_part(kind: SyntaxKind, next_line: Option<usize>) -> Part
    ensures { result ≡ token_part kind next_line }
{
    match next_line {
        Some(start) => {
            if kind == SyntaxKind::TOKEN_WHITESPACE {
                Part::LineBreak(start)
            } else {
                Part::Other
            }
        }
        None => {
            if kind == SyntaxKind::TOKEN_WHITESPACE {
                Part::Blanks
            } else if kind == SyntaxKind::TOKEN_COMMENT {
                Part::Comment
            } else {
                Part::Other
            }
        }
    }
}

// Returns how an element affects the rest of its line.
fn part_of(element: &SyntaxElement<'_>) -> Part
    ensures { result ≡ part_of (spot_of element.now) }
{
    match element {
        NodeOrToken::Node(_) => Part::Other,
        NodeOrToken::Token(token) => token_part(token.kind(), second_line(token)),
    }
}

// Returns the siblings after a node.
fn siblings_after<'t>(node: &SyntaxNode<'t>) -> SiblingsWithTokens<'t>
    ensures siblings { result ≡ siblings_after node.now }
    ensures fits { length result < 2 ^ 64 }
{
    let mut siblings = node.siblings_with_tokens(Direction::Next);
    let _node = siblings.next();
    siblings
}

// Returns the end of an element.
fn end_of(element: &SyntaxElement<'_>) -> usize
    ensures { result ≡ (item_of (spot_of element.now).1).end }
{
    match element {
        NodeOrToken::Node(node) => node.text_range().end(),
        NodeOrToken::Token(token) => token.text_range().end(),
    }
}

/// Returns the rest of a node's line, if it has only one-line comments.
pub fn rest_of_line(node: &SyntaxNode<'_>) -> Option<RestOfLine>
    ensures { result ≡ rest_of_line node.now }
{
    let mut comments = 0;
    let mut end = node.text_range().end();
    for element in siblings_after(node) {
        match part_of(&element) {
            Part::Blanks => continue,
            Part::LineBreak(next_line) => {
                return Some(RestOfLine {
                    next_line,
                    comments,
                    end,
                });
            }
            Part::Comment => {}
            Part::Other => return None,
        }
        comments += 1;
        end = end_of(&element);
    }
    None
}

// Returns the start of an element if it is a token, otherwise `end`.
fn token_start(element: &SyntaxElement<'_>, end: usize) -> usize
    ensures { result ≡ token_start end (spot_of element.now) }
{
    match element {
        NodeOrToken::Node(_) => end,
        NodeOrToken::Token(token) => token.text_range().start(),
    }
}

/// Returns the start of the token with which a node ends, or the end of the node if its last child is a node.
pub fn closing_start(node: &SyntaxNode<'_>) -> usize
    ensures { result ≡ closing_start node.now }
{
    let end = node.text_range().end();
    let mut closing = end;
    for element in node.children_with_tokens() {
        closing = token_start(&element, end);
    }
    closing
}
