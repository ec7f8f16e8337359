//! Replacements that close what is open.

use crate::brackets::Opening;
use crate::near::{first_part, indentation, line_start, text_before};
use crate::replacement::Replacement;
use crate::unexpected::UnexpectedToken;
use SyntaxKind::*;
use rnix::{SyntaxKind, SyntaxToken, TextRange};

// Returns the closing bracket for an opening one, after white space where that is usual.
fn closing_bracket(opener: SyntaxKind, is_spaced: bool) -> Option<&'static str> {
    match (opener, is_spaced) {
        (TOKEN_L_BRACE, false) => Some("}"),
        (TOKEN_L_BRACE, true) => Some(" }"),
        (TOKEN_L_BRACK, false) => Some("]"),
        (TOKEN_L_BRACK, true) => Some(" ]"),
        (TOKEN_L_PAREN, _) => Some(")"),
        (TOKEN_INTERPOL_START, _) => Some("}"),
        _ => None,
    }
}

// Returns the keyword that follows what another one opens, before an expression.
fn next_keyword(opener: SyntaxKind) -> Option<&'static str> {
    match opener {
        TOKEN_LET => Some("in "),
        TOKEN_IF => Some("then "),
        TOKEN_THEN => Some("else "),
        _ => None,
    }
}

// Returns whether a token of the kind may begin an expression.
fn begins_expression(kind: SyntaxKind) -> bool {
    matches!(
        kind,
        TOKEN_ASSERT
            | TOKEN_CUR_POS
            | TOKEN_FLOAT
            | TOKEN_IDENT
            | TOKEN_IF
            | TOKEN_INTEGER
            | TOKEN_INVERT
            | TOKEN_L_BRACE
            | TOKEN_L_BRACK
            | TOKEN_L_PAREN
            | TOKEN_LET
            | TOKEN_PATH_ABS
            | TOKEN_PATH_HOME
            | TOKEN_PATH_REL
            | TOKEN_PATH_SEARCH
            | TOKEN_REC
            | TOKEN_STRING_START
            | TOKEN_SUB
            | TOKEN_URI
            | TOKEN_WITH
    )
}

// Writes a keyword before an unexpected token, if this begins the expression that follows the keyword.
fn keyword_before(keyword: &'static str, token: &SyntaxToken<'_>) -> Option<Replacement> {
    if !begins_expression(token.kind()) {
        return None;
    }
    Some(Replacement::insertion(token.text_range().start(), keyword))
}

// Returns the closing bracket at the end of a text.
fn last_bracket(opener: SyntaxKind) -> Option<&'static str> {
    match opener {
        TOKEN_L_BRACE => Some("\n}"),
        TOKEN_L_BRACK => Some("\n]"),
        _ => closing_bracket(opener, false),
    }
}

// Closes what is open before an unexpected token, or in its place if it is a closing bracket that matches none.
fn closing_before(
    opener: SyntaxKind,
    unexpected: &UnexpectedToken<'_>,
    extra: Option<TextRange>,
) -> Option<Replacement> {
    if let Some(keyword) = next_keyword(opener) {
        return keyword_before(keyword, &unexpected.token);
    }
    let range = unexpected.token.text_range();
    let is_bracket = matches!(
        unexpected.token.kind(),
        TOKEN_R_BRACE | TOKEN_R_BRACK | TOKEN_R_PAREN
    );
    if is_bracket && extra == Some(range) {
        return Some(Replacement::new(range, closing_bracket(opener, false)?));
    }
    let before = unexpected.before.as_ref()?;
    let closing = closing_bracket(opener, true)?;
    Some(Replacement::insertion(before.text_range().end(), closing))
}

// Ends a string in `"` on its first line, before a `;` at the end of that line.
fn closing_quote(opening: Opening, text: &str) -> Option<Replacement> {
    let (start, end) = (opening.range.start(), opening.range.end());
    let line = text_before(text, end, '\n')?.trim_end();
    let content = line.strip_suffix(';').unwrap_or(line);
    if content.is_empty() {
        return opening_quote(start, text.get(line_start(text, start)?..start)?);
    }
    let end = end.checked_add(content.len())?;
    Some(Replacement::insertion(end, "\""))
}

// Repairs a line that ends with the closing quote of a string: closes the interpolation before the quote, or opens the string before the last word.
fn opening_quote(quote: usize, line: &str) -> Option<Replacement> {
    if line.contains("${") {
        return Some(Replacement::insertion(quote, "}"));
    }
    let (_, word) = line.rsplit_once(' ')?;
    Some(Replacement::insertion(quote.saturating_sub(word.len()), "\""))
}

// Closes braces that contain the rest of the text by mistake, after the next lines that are indented more than their own.
fn closing_braces(opening: Opening, text: &str) -> Option<Replacement> {
    let first = line_start(text, opening.range.start())?;
    let own = indentation(text.get(first..)?);
    let mut start = opening.range.end();
    let mut end = None;
    let rest = first_part(text.get(start..)?);
    for (number, line) in rest.split_inclusive('\n').enumerate() {
        let indent = indentation(line);
        let content = line.trim();
        if number > 0 && !content.is_empty() && indent <= own {
            return end_entry(end?, start, indent, content);
        }
        if number > 0 && !content.is_empty() {
            end = Some(start.saturating_add(line.trim_end().len()));
        }
        start = start.saturating_add(line.len());
    }
    None
}

// Ends an entry at an offset, with the indentation of the next line, which closes nothing and starts at another offset.
fn end_entry(end: usize, next: usize, indent: usize, content: &str) -> Option<Replacement> {
    if content.starts_with(['}', ']', ')']) {
        return None;
    }
    Some(Replacement {
        range: TextRange::empty(end),
        before: "\n",
        kept: TextRange::empty(next).cover_offset(next.saturating_add(indent)),
        after: "};",
    })
}

// Closes what is open at the end of a text.
fn closing_at_end(opening: Opening, end: usize, text: &str) -> Option<Replacement> {
    match (opening.kind, opening.is_suspect) {
        (TOKEN_L_BRACE, true) => closing_braces(opening, text),
        (kind, _) => Some(Replacement::insertion(end, last_bracket(kind)?)),
    }
}

/// Returns the replacement that closes an opening: a string in place of the `"` that seems to end it, or on its first line; anything else before the unexpected
/// token or, without one, at the end of the text.
pub fn closing(
    opening: Opening,
    unexpected: Option<&UnexpectedToken<'_>>,
    location: TextRange,
    extra: Option<TextRange>,
    text: &str,
) -> Option<Replacement> {
    if let Some(quote) = opening.quote {
        let range = TextRange::empty(quote).cover_offset(quote.saturating_add(1));
        return Some(Replacement::new(range, "''"));
    }
    if opening.kind == TOKEN_STRING_START {
        return closing_quote(opening, text).filter(|_| opening.range.len() == 1);
    }
    match unexpected {
        Some(unexpected) => closing_before(opening.kind, unexpected, extra),
        None => closing_at_end(opening, location.end(), text),
    }
}
