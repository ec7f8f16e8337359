//! The gaps before comments, and before the piece that follows them.

use crate::piece::{Gap, Level, Piece};
use crate::spacing::Spacing;

/// Returns the gap with a spacing, for a piece with a number of line feeds before it.
pub fn plain_gap(spacing: Spacing, group: u32, line_feeds: u8) -> Gap {
    Gap {
        group,
        blanks: spacing.blanks,
        can_break: spacing.can_break,
        is_hard: spacing.is_hard || (spacing.keeps_break && line_feeds > 0),
        keeps_break: spacing.keeps_break,
        has_empty_line: spacing.keeps_empty && line_feeds > 1,
        level: spacing.level,
    }
}

// Returns the same gap with a line feed.
fn ended(gap: Gap, line_feeds: u8, may_be_empty: bool) -> Gap {
    Gap {
        is_hard: true,
        has_empty_line: may_be_empty && line_feeds > 1,
        ..gap
    }
}

// Returns the same gap with one space and no line feed.
fn spaced(gap: Gap) -> Gap {
    Gap {
        blanks: 1,
        can_break: false,
        is_hard: false,
        has_empty_line: false,
        ..gap
    }
}

// Returns the level of comments: inside the brackets, if a closing bracket follows.
fn comment_level(spacing: Spacing) -> Level {
    if spacing.closes {
        Level::Inner
    } else {
        spacing.level
    }
}

// Returns the gap before a comment, given whether it is the first of its comments, whether the one before it ended its line, and whether this one does. A first
// comment that ends its line has one of its own after an opening bracket or keyword.
fn comment_gap(
    piece: &Piece,
    spacing: Spacing,
    group: u32,
    is_first: bool,
    is_ended: bool,
    ends: bool,
) -> Gap {
    let gap = Gap {
        blanks: if spacing.opens { spacing.blanks } else { 1 },
        keeps_break: spacing.keeps_break || spacing.closes,
        level: comment_level(spacing),
        ..plain_gap(spacing, group, piece.line_feeds)
    };
    let is_opening = is_first && spacing.opens;
    let may_be_empty = !is_opening || spacing.keeps_empty;
    if is_ended || (ends && (piece.line_feeds > 0 || is_opening)) {
        ended(gap, piece.line_feeds, may_be_empty)
    } else if ends || !is_first {
        spaced(gap)
    } else {
        gap
    }
}

// Returns the gap before the piece that follows comments.
fn gap_after(piece: &Piece, spacing: Spacing, group: u32, is_ended: bool) -> Gap {
    let gap = plain_gap(spacing, group, piece.line_feeds);
    if is_ended {
        ended(
            gap,
            piece.line_feeds,
            !spacing.closes || spacing.keeps_empty,
        )
    } else if spacing.closes {
        Gap {
            keeps_break: true,
            ..gap
        }
    } else {
        spaced(gap)
    }
}

// Returns whether the line ends after a comment.
fn ends_line(pieces: &[Piece], number: usize) -> bool {
    match (pieces.get(number), pieces.get(number.saturating_add(1))) {
        (Some(piece), Some(next)) => piece.ends_line() || next.line_feeds > 0,
        _ => true,
    }
}

/// Sets the gaps of the pieces from a number on: comments, and perhaps a last piece that is not a comment.
pub fn set_gaps(pieces: &mut Vec<Piece>, from: usize, spacing: Spacing, group: u32) {
    let mut is_ended = false;
    for number in from..pieces.len() {
        let ends = ends_line(pieces, number);
        let piece = pieces[number];
        let is_first = number == from;
        let gap = if piece.is_comment() {
            comment_gap(&piece, spacing, group, is_first, is_ended, ends)
        } else if is_first {
            plain_gap(spacing, group, piece.line_feeds)
        } else {
            gap_after(&piece, spacing, group, is_ended)
        };
        pieces[number].gap = gap;
        is_ended = piece.is_comment() && ends;
    }
}
