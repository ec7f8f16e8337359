//! The bytes that are removed with a node.

ghost use Rattle.std.specs.Prelude.{◌≡◌};
ghost use Rattle.rnix_edit.specs.EditRanges.{cut_in_line, cut_with_rest, cut_of};

use crate::blanks::{begins_line, blanks_end, blanks_start, follows_opening};
use crate::line::{RestOfLine, rest_of_line};
use rnix::SyntaxNode;

/// The range of bytes that is removed with a node, and the number of comments after the node that it contains.
#[derive(Clone, Copy)]
pub struct Cut {
    pub start: usize,
    pub end: usize,
    pub comments: usize,
}

// Returns the range that is removed with a node that is not the last on its line: the node, and the blanks on one side of it.
fn cut_in_line(text: &str, start: usize, end: usize) -> Cut
    ensures { result ≡ cut_in_line text.now start end }
{
    let before = blanks_start(text, start);
    let after = blanks_end(text, end);
    if after == end {
        Cut {
            start: before,
            end,
            comments: 0,
        }
    } else if before < start || follows_opening(text, start) {
        Cut {
            start,
            end: after,
            comments: 0,
        }
    } else {
        Cut {
            start,
            end,
            comments: 0,
        }
    }
}

// Returns the range that is removed with a node if only comments follow it on its line: the whole line if the node is the first on it, otherwise the
// blanks before the node, the node and the comments.
fn cut_with_rest(text: &str, start: usize, rest: RestOfLine) -> Cut
    ensures { result ≡ cut_with_rest text.now start rest }
{
    let before = blanks_start(text, start);
    if begins_line(text, before) {
        Cut {
            start: before,
            end: rest.next_line,
            comments: rest.comments,
        }
    } else {
        Cut {
            start: before,
            end: rest.end,
            comments: rest.comments,
        }
    }
}

/// Returns the range that is removed with a node.
pub fn cut_of(text: &str, node: &SyntaxNode<'_>) -> Cut
    ensures { result ≡ cut_of text.now node.now }
{
    let range = node.text_range();
    match rest_of_line(node) {
        Some(rest) => cut_with_rest(text, range.start(), rest),
        None => cut_in_line(text, range.start(), range.end()),
    }
}
