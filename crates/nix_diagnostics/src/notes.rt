//! Notes on errors: what is not closed, where something is missing, and what may be meant.

use crate::brackets::{Matching, Opening};
use crate::closings::closing;
use crate::error_nodes::token_before;
use crate::hints::hint_of;
use crate::proposals::proposal;
use crate::replacement::Replacement;
use crate::unexpected::UnexpectedToken;
use crate::with_sets::{set_at_end, set_before};
use SyntaxKind::*;
use rnix::ast::{AstNode, Pattern};
use rnix::{ParseError, SyntaxKind, SyntaxNode, TextRange};
use std::alloc::{AllocError, Global};

// The greatest number of entries of patterns that are searched for first declarations, for all errors of a text together.
const MAX_ENTRIES: usize = 100_000;

/// A note that may help with an error.
#[derive(Clone, Copy)]
pub struct Note {
    /// The bytes that it is about, if they are not those of the error.
    pub range: Option<TextRange>,
    /// The message, in one line.
    pub message: &'static str,
    /// A guess at what to write instead, if there is one. The text may have as many errors with it, or other ones.
    pub replacement: Option<Replacement>,
}

// Returns the message for a token that opens something and is not closed.
fn opened(opening: Opening) -> &'static str {
    match opening.kind {
        TOKEN_STRING_START if opening.quote.is_some() => {
            "this string begins with '', but \" seems to end it"
        }
        TOKEN_STRING_START if opening.is_long => {
            "this string continues on the next line: is a quote missing?"
        }
        TOKEN_STRING_START => "this string is not closed",
        TOKEN_L_BRACE => "this \"{\" is not closed",
        TOKEN_L_BRACK => "this \"[\" is not closed",
        TOKEN_L_PAREN => "this \"(\" is not closed",
        TOKEN_INTERPOL_START => "this \"${\" is not closed",
        TOKEN_LET => "this \"let\" has no \"in\"",
        TOKEN_IF => "this \"if\" has no \"then\"",
        _ => "this \"then\" has no \"else\"",
    }
}

// Returns the range of the first argument of a pattern with a name. Decreases the number of entries that may still be searched.
fn argument_in(
    pattern: &Pattern<'_>,
    name: &str,
    entries_remaining: &mut usize,
) -> Option<TextRange> {
    for entry in pattern.pat_entries() {
        if *entries_remaining == 0 {
            return None;
        }
        *entries_remaining -= 1;
        if let Some(ident) = entry.ident() {
            if ident.syntax().text() == name {
                return Some(ident.syntax().text_range());
            }
        }
    }
    None
}

// Returns the note on the first argument with a name, in the pattern that repeats the name at a range.
fn first_argument(
    root: &SyntaxNode<'_>,
    range: TextRange,
    name: &str,
    entries_remaining: &mut usize,
) -> Option<Note> {
    if *entries_remaining == 0 || !root.text_range().contains_inclusive(range.start()) {
        return None;
    }
    let token = root.token_at_offset(range.start()).right_biased()?;
    for node in token.parent_ancestors() {
        if let Some(pattern) = Pattern::cast(node) {
            return Some(Note {
                range: Some(argument_in(&pattern, name, entries_remaining)?),
                message: "first declared here",
                replacement: None,
            });
        }
    }
    None
}

// Returns the note on an offset where a `;` is missing.
fn semicolon_at(offset: usize) -> Note {
    Note {
        range: Some(TextRange::empty(offset)),
        message: "\";\" is missing here",
        replacement: Some(Replacement::insertion(offset, ";")),
    }
}

// Returns the note on the position before an unexpected token where a `;` is missing.
fn missing_semicolon(unexpected: &UnexpectedToken<'_>) -> Option<Note> {
    let offset = match unexpected.parent.kind() {
        NODE_INHERIT if unexpected.token.kind() == TOKEN_ASSIGN => {
            token_before(unexpected.before.as_ref()?)?
                .text_range()
                .end()
        }
        NODE_INHERIT => unexpected.before.as_ref()?.text_range().end(),
        _ if unexpected.expected == Some(TOKEN_SEMICOLON) => unexpected.end_of_value()?,
        _ => return None,
    };
    Some(semicolon_at(offset))
}

// Returns whether an error says that a `;` may be missing at the end of the text.
fn lacks_semicolon(error: &ParseError) -> bool {
    match error {
        ParseError::UnexpectedEOF => true,
        ParseError::UnexpectedEOFWanted(expected) => expected.contains(&TOKEN_SEMICOLON),
        _ => false,
    }
}

// Returns the note on an `inherit` whose `;` is missing at the end of the text, where the error is shown.
fn open_inherit(
    error: &ParseError,
    inherit: Option<TextRange>,
    location: TextRange,
) -> Option<Note> {
    if !lacks_semicolon(error) {
        return None;
    }
    Some(Note {
        range: Some(inherit?),
        message: "this \"inherit\" has no \";\"",
        replacement: Some(Replacement::insertion(location.end(), ";")),
    })
}

// Returns whether an unexpected token is more likely outside a list or set that is not closed than meant to be in it.
fn is_outside(unexpected: &UnexpectedToken<'_>) -> bool {
    match unexpected.token.kind() {
        TOKEN_ASSIGN | TOKEN_SEMICOLON => unexpected.expects_expression(),
        TOKEN_IN | TOKEN_THEN | TOKEN_ELSE => unexpected.expects_name(),
        _ => false,
    }
}

// Returns the note on an unexpected token: a hint, or the position where a `;` is missing. If `is_explained`, an unclosed opening explains the error, and only
// hints are returned.
fn remark(
    unexpected: &UnexpectedToken<'_>,
    is_explained: bool,
    extra: Option<TextRange>,
    text: &str,
) -> Option<Note> {
    let kind = unexpected.token.kind();
    let is_closing = matches!(kind, TOKEN_R_BRACE | TOKEN_R_BRACK | TOKEN_R_PAREN);
    if is_closing && !is_explained && extra == Some(unexpected.token.text_range()) {
        return Some(Note {
            range: None,
            message: "no opening bracket matches this",
            replacement: Some(Replacement::new(unexpected.token.text_range(), "")),
        });
    }
    if let Some(offset) = set_before(unexpected) {
        return Some(semicolon_at(offset));
    }
    match hint_of(unexpected) {
        Some(_) if is_explained && is_outside(unexpected) => None,
        Some(hint) => Some(Note {
            range: None,
            message: hint.message(),
            replacement: proposal(hint, unexpected, text),
        }),
        None if is_explained => None,
        None => missing_semicolon(unexpected),
    }
}

// Returns a list of at most one note, without spare capacity, because a text may have many such lists.
fn alone(alloc: Global, note: Option<Note>) -> Result<Vec<Note>, AllocError> {
    let mut notes = Vec::new(alloc);
    if let Some(note) = note {
        notes.reserve_exact(1)?;
        notes.push(note)?;
    }
    Ok(notes)
}

/// Finds notes on the errors of a text.
#[derive(Drop)]
pub struct NoteFinder {
    matching: Matching,
    // The number of entries of patterns that may still be searched.
    entries_remaining: usize,
    // Whether a `with` was searched for at the end of the text.
    has_searched_end: bool,
    // Whether each error is shown, and not one for each mistake.
    is_each: bool,
}

impl NoteFinder {
    /// Returns a finder for a text with these brackets, for each error or one for each mistake.
    pub fn new(matching: Matching, is_each: bool) -> NoteFinder {
        NoteFinder {
            matching,
            entries_remaining: MAX_ENTRIES,
            has_searched_end: false,
            is_each,
        }
    }

    /// Returns a finder for errors about repeated names, whose notes need no brackets.
    pub fn of_names(alloc: Global) -> NoteFinder {
        NoteFinder::new(Matching::none(alloc), false)
    }

    /// Returns what is open at the location of a mistake and is never closed. Returns `None` if each error is shown, since many may follow from one opening.
    pub fn missing(&self, location: TextRange) -> Option<Opening> {
        if self.is_each {
            return None;
        }
        self.unclosed(location)
    }

    // Returns the best guess at what is open at a location and is never closed.
    fn unclosed(&self, location: TextRange) -> Option<Opening> {
        self.matching
            .mismatch
            .unclosed
            .filter(|opening| opening.range.start() <= location.start())
    }

    // Returns the note on the set of a `with` at the end of the text whose `;` is missing. Searches for it once.
    fn open_with(&mut self, error: &ParseError, root: &SyntaxNode<'_>) -> Option<Note> {
        if self.has_searched_end || !lacks_semicolon(error) {
            return None;
        }
        self.has_searched_end = true;
        Some(semicolon_at(set_at_end(root)?))
    }

    /// Returns the notes on an error, given its error node and the location where it is shown.
    pub fn notes(
        &mut self,
        alloc: Global,
        error: &ParseError,
        root: &SyntaxNode<'_>,
        node: Option<SyntaxNode<'_>>,
        location: TextRange,
    ) -> Result<Vec<Note>, AllocError> {
        if let ParseError::DuplicatedArgs(range, name) = error {
            let first = first_argument(root, *range, name.as_str(), &mut self.entries_remaining);
            return alone(alloc, first);
        }
        let mut notes = Vec::new(alloc);
        let (mismatch, text) = (self.matching.mismatch, root.text());
        let unexpected = UnexpectedToken::of(error, node, &self.matching);
        let unclosed = self.unclosed(location);
        if let Some(opening) = unclosed {
            notes.push(Note {
                range: Some(opening.range),
                message: opened(opening),
                replacement: closing(opening, unexpected.as_ref(), location, mismatch.extra, text),
            })?;
        }
        notes.extend(open_inherit(error, mismatch.inherit, location))?;
        notes.extend(self.open_with(error, root))?;
        if let Some(unexpected) = unexpected {
            notes.extend(remark(&unexpected, unclosed.is_some(), mismatch.extra, text))?;
        }
        Ok(notes)
    }
}
