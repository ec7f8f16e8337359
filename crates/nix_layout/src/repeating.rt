//! Whether a new text stays the same when it is formatted again.
//!
//! The second run has the same pieces in the same groups. Their widths differ only where the line ends beside them anyway: a last comma has one, and a comment
//! that has become one with `#` is shorter. The gaps differ where a line feed was written that the second run keeps: there the gap is hard. So its text is the
//! same if its groups have the same modes, and its line ends are the same.

use crate::layout::Layout;
use crate::line_ends::{FEED, end_of_comment};
use crate::modes::Modes;
use crate::piece::{Gap, Piece, PieceKind};

// Returns whether a piece may be written as a comment with `#`.
fn may_end_line(piece: &Piece) -> bool {
    matches!(piece.kind, PieceKind::LineComment | PieceKind::ShortComment)
}

// Returns whether a line that does not end with a comment with `#` ends between two pieces or at the end of the text.
fn has_line_end(pieces: &[Piece], modes: &Modes) -> bool {
    let mut follows_comment = true;
    for piece in pieces {
        if !follows_comment && modes.ends_line(piece.gap) {
            return true;
        }
        follows_comment = may_end_line(piece);
    }
    !follows_comment
}

// Returns whether the line end after the first comment with `#` of the new text is the one that was written elsewhere. A comment that has become one with `#`
// has that line end.
fn has_same_comment_end(text: &str, line_end: &str, pieces: &[Piece], modes: &Modes) -> bool {
    for (number, piece) in pieces.iter().enumerate() {
        match piece.kind {
            PieceKind::LineComment => return end_of_comment(text, piece) == line_end,
            PieceKind::ShortComment if modes.ends_line_after(pieces, number) => return true,
            _ => {}
        }
    }
    line_end == FEED
}

// Makes the gaps hard where the second run keeps a line feed. Returns whether there are any.
fn harden(pieces: &mut Vec<Piece>, modes: &Modes) -> bool {
    let mut are_any = false;
    for number in 0..pieces.len() {
        let gap = pieces[number].gap;
        if gap.keeps_break && !gap.is_hard && modes.ends_line(gap) {
            pieces[number].gap = Gap {
                is_hard: true,
                ..gap
            };
            are_any = true;
        }
    }
    are_any
}

/// Returns whether the new text of a layout stays the same when it is formatted again. The layout of the old text becomes that of the new one.
pub fn is_repeated(text: &str, line_end: &str, layout: &mut Layout, modes: &mut Modes) -> bool {
    let same_end = has_line_end(&layout.pieces, modes)
        || has_same_comment_end(text, line_end, &layout.pieces, modes);
    same_end && (!harden(&mut layout.pieces, modes) || modes.are_kept(layout))
}
