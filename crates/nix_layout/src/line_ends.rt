//! The line ends that are written between tokens.

use crate::piece::Piece;

/// The line end of a text that has none.
pub const FEED: &str = "\n";

// The other line end that a text may have.
const RETURN_AND_FEED: &str = "\r\n";

// A search for the first line end of a text.
#[derive(Clone, Copy)]
struct Search<'a> {
    text: &'a str,
    // Where the white space begins that may contain the next line end, and whether it follows a comment with `#`.
    start: usize,
    follows_comment: bool,
    // The first line end after a comment with `#`.
    comment_end: Option<&'static str>,
}

impl<'a> Search<'a> {
    // Returns the first line end in the white space before an offset.
    fn end_before(self, end: usize) -> Option<&'static str> {
        let feed = self.text.get(self.start..end)?.find('\n')?;
        let before = self.text.get(..self.start.saturating_add(feed))?;
        Some(if before.ends_with('\r') {
            RETURN_AND_FEED
        } else {
            FEED
        })
    }

    // Returns the state after a piece before which there is no line end, or only one after a comment.
    fn after(self, piece: &Piece, found: Option<&'static str>) -> Search<'a> {
        Search {
            start: piece.end(),
            follows_comment: piece.ends_line(),
            comment_end: self.comment_end.or(found),
            ..self
        }
    }

    // Returns the line end to be written, given the last one of the text.
    fn finish(self, last: Option<&'static str>) -> &'static str {
        let found = if self.follows_comment {
            self.comment_end.or(last)
        } else {
            last.or(self.comment_end)
        };
        found.unwrap_or(FEED)
    }
}

/// Returns the line end after a comment with `#` of the old text.
pub fn end_of_comment(text: &str, comment: &Piece) -> &'static str {
    match text.get(comment.start()..comment.end()) {
        Some(comment) if comment.ends_with('\r') => RETURN_AND_FEED,
        _ => FEED,
    }
}

/// Returns the first line end of a text that is between tokens and does not end a comment with `#`, whose carriage return belongs to the comment.
/// If there is none, returns the first one after such a comment, or else a line feed.
pub fn line_end_of(text: &str, pieces: &[Piece]) -> &'static str {
    let Some(feed) = text.find('\n') else {
        return FEED;
    };
    // There is no line end before the first line feed.
    let passed = pieces.partition_point(|piece| piece.end() <= feed);
    let (before, rest) = pieces.split_at(passed);
    let mut search = Search {
        text,
        start: before.last().map_or(0, |piece| piece.end()),
        follows_comment: before.last().is_some_and(|piece| piece.ends_line()),
        comment_end: None,
    };
    for piece in rest {
        let found = search.end_before(piece.start());
        match found {
            Some(end) if !search.follows_comment => return end,
            _ => search = search.after(piece, found),
        }
    }
    search.finish(search.end_before(text.len()))
}
