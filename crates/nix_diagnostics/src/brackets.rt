//! Matching of brackets, strings and keywords by the tokens of a text alone.

ghost use Rattle.std.specs.Prelude.{◌≡◌, IfOk};
ghost use Rattle.rnix_kinds.specs.SyntaxKind.{is_trivia};
ghost use Rattle.nix_diagnostics.specs.Independence.{semicolons_of};
ghost use Rattle.nix_diagnostics.specs.Known.{IsMatching};

use crate::closing_quotes::closing_quote;
use crate::openings::{Openings, is_bracket, opener_of, opens};
use crate::semicolons::{Semicolon, add_semicolon};
use SyntaxKind::*;
use rnix::{NodeOrToken, SyntaxKind, SyntaxNode, SyntaxToken, TextRange};
use std::alloc::{AllocError, Global};

// The greatest number of openings that are stored. The parser stops at expressions nested more than 512 deep.
const MAX_OPEN: usize = 2048;

/// A token that opens something.
#[derive(Clone, Copy)]
pub struct Opening {
    /// Its kind.
    pub kind: SyntaxKind,
    /// Its range.
    pub range: TextRange,
    /// Whether it starts a string in `"` that spans several lines.
    pub is_long: bool,
    /// If it starts a string in `''`, the offset of the first `"` in the string that seems to end it.
    pub quote: Option<usize>,
    /// Whether it may lack its own closing token: what closes it is the first token of a line that is indented less.
    pub is_suspect: bool,
    // The number of its line, and the indentation of that line in bytes.
    line: usize,
    indent: usize,
    // The kinds of this opening and of those around it, as the sum of their bits.
    kinds: u8,
    // Whether the number of `"` so far in the string that it starts is odd.
    is_odd: bool,
}

// Returns the bit of a kind that opens something.
fn bit_of(opener: SyntaxKind) -> u8 {
    match opener {
        TOKEN_L_BRACE => 1,
        TOKEN_L_BRACK => 2,
        TOKEN_L_PAREN => 4,
        TOKEN_INTERPOL_START => 8,
        TOKEN_STRING_START => 16,
        TOKEN_LET => 32,
        TOKEN_IF => 64,
        TOKEN_THEN => 128,
        _ => 0,
    }
}

// The state while the tokens of a text are read.
#[derive(Drop)]
struct Brackets {
    // The open openings, innermost last, and the number of openings inside them that are not stored.
    open: Vec<Opening>,
    over_limit: usize,
    // The first opening whose closing token is missing: another token closes something around it.
    unclosed: Option<Opening>,
    // The first opening that is closed by the first token of a line that is indented less.
    suspect: Option<Opening>,
    // The first string in `"` that spans several lines.
    long: Option<Opening>,
    // The first string in `''` that a `"` seems to end.
    quoted: Option<Opening>,
    // The starts of the braces that `:` or `@` follows.
    patterns: Vec<usize>,
    // The start of the braces that the last token other than trivia closes.
    closed: Option<usize>,
    // The last `inherit`, if no `;` follows it.
    inherit: Option<TextRange>,
    // The kind of the last token other than trivia.
    last: Option<SyntaxKind>,
    // The number of the line, its indentation in bytes, and whether it has had only trivia so far.
    line: usize,
    indent: usize,
    is_first: bool,
}

impl Brackets {
    // Returns the state before the first token.
    fn new(alloc: Global) -> Brackets {
        Brackets {
            open: Vec::new(alloc),
            over_limit: 0,
            unclosed: None,
            suspect: None,
            long: None,
            quoted: None,
            patterns: Vec::new(alloc),
            closed: None,
            inherit: None,
            last: None,
            line: 0,
            indent: 0,
            is_first: true,
        }
    }

    // Searches the content of a string in `''` for a `"` that seems to end the string.
    fn read_content(&mut self, start: usize, text: &str) {
        let Some(string) = self.open.last().copied() else {
            return;
        };
        let is_indented = string.kind == TOKEN_STRING_START && string.range.len() == 2;
        if !is_indented || self.over_limit > 0 {
            return;
        }
        let (quote, is_odd) = closing_quote(text, string.indent, string.is_odd);
        if let Some(offset) = quote {
            let quoted = Opening {
                quote: Some(start.saturating_add(offset)),
                ..string
            };
            self.quoted = Some(self.quoted.unwrap_or(quoted));
        }
        let innermost = self.open.len().saturating_sub(1);
        if let Some(string) = self.open.get_mut(innermost) {
            string.is_odd = is_odd;
        }
    }

    // Reads trivia or the content of a string: counts lines, and records a string that spans several.
    fn skip(&mut self, kind: SyntaxKind, text: &[u8]) {
        let Some(feed) = text.iter().rposition(|byte| *byte == b'\n') else {
            return;
        };
        self.line = self.line.saturating_add(1);
        self.indent = text.len().saturating_sub(feed).saturating_sub(1);
        self.is_first = true;
        if let (TOKEN_STRING_CONTENT, 0, Some(string)) = (kind, self.over_limit, self.open.last()) {
            if string.range.len() == 1 {
                let long = Opening {
                    is_long: true,
                    ..*string
                };
                self.long = Some(self.long.unwrap_or(long));
            }
        }
    }

    // Adds the opening that a token begins.
    fn add_opening(&mut self, kind: SyntaxKind, range: TextRange) -> Result<(), AllocError> {
        if self.open.len() == MAX_OPEN {
            self.over_limit = self.over_limit.saturating_add(1);
            return Ok(());
        }
        let around = self.open.last().map_or(0, |outer| outer.kinds);
        self.open.push(Opening {
            kind,
            range,
            is_long: false,
            quote: None,
            is_suspect: false,
            line: self.line,
            indent: self.indent,
            kinds: around | bit_of(kind),
            is_odd: false,
        })?;
        Ok(())
    }

    // Removes the innermost opening.
    fn forget(&mut self) {
        if self.over_limit > 0 {
            self.over_limit -= 1;
        } else {
            let _innermost = self.open.pop();
        }
    }

    // Returns the index of the innermost opening of a kind. Searches only if there is one.
    fn innermost(&self, kind: SyntaxKind) -> Option<usize> {
        let inner = self.open.last()?;
        if inner.kinds & bit_of(kind) == 0 {
            return None;
        }
        self.open.iter().rposition(|opening| opening.kind == kind)
    }

    // Closes the innermost opening of a kind. The openings inside it are never closed.
    fn close(&mut self, kind: SyntaxKind) {
        let Some(number) = self.innermost(kind) else {
            return;
        };
        if let Some(inside) = self.open.get(number.saturating_add(1)) {
            self.unclosed = Some(self.unclosed.unwrap_or(*inside));
        } else if let Some(own) = self.open.get(number) {
            if self.is_first && own.line != self.line && self.indent < own.indent {
                let suspect = Opening {
                    is_suspect: true,
                    ..*own
                };
                self.suspect = Some(self.suspect.unwrap_or(suspect));
            }
        }
        if kind == TOKEN_L_BRACE {
            self.closed = self.open.get(number).map(|brace| brace.range.start());
        }
        self.open.truncate(number);
    }

    // Closes what a token of the kind closes. An opening that is nested too deep to be stored is closed by any closing token.
    fn close_with(&mut self, kind: SyntaxKind) {
        match opener_of(kind) {
            Some(_) if self.over_limit > 0 => self.forget(),
            Some(opener) => self.close(opener),
            None => {}
        }
    }

    // Records the braces before a token, if the token shows that they are those of a pattern.
    fn end_braces(&mut self, next: SyntaxKind) -> Result<(), AllocError> {
        if matches!(next, TOKEN_COLON | TOKEN_AT) {
            self.patterns.extend(self.closed)?;
        }
        self.closed = None;
        Ok(())
    }

    // Reads the next token, if it opens or closes something.
    fn read_bracket(
        &mut self,
        token: &SyntaxToken<'_>,
        kind: SyntaxKind,
    ) -> Result<(), AllocError> {
        self.close_with(kind);
        // A legacy `let` has no `in`.
        if kind == TOKEN_L_BRACE && self.last == Some(TOKEN_LET) {
            self.forget();
        }
        if opens(kind) {
            self.add_opening(kind, token.text_range())?;
        }
        Ok(())
    }

    // Reads the next token, of the given kind.
    fn read(&mut self, token: &SyntaxToken<'_>, kind: SyntaxKind) -> Result<(), AllocError> {
        // The content of a string that is not closed is an unknown text.
        if matches!(kind, TOKEN_STRING_CONTENT | TOKEN_ERROR) {
            self.read_content(token.text_range().start(), token.text());
        }
        if is_trivia(kind) || kind == TOKEN_STRING_CONTENT {
            self.skip(kind, token.text().as_bytes());
            return Ok(());
        }
        self.end_braces(kind)?;
        if is_bracket(kind) {
            self.read_bracket(token, kind)?;
        }
        match kind {
            TOKEN_INHERIT => self.inherit = Some(token.text_range()),
            TOKEN_SEMICOLON => self.inherit = None,
            _ => {}
        }
        self.last = Some(kind);
        self.is_first = false;
        Ok(())
    }

    // Returns the best guess at the opening that is never closed. If a `"` seems to end a string in `''`, this is that string. If the innermost one at the end
    // is a string, it is the first string that spans several lines. Otherwise it is the first one inside something that is closed, the first one that the
    // indentation shows, or the innermost one at the end.
    fn unclosed(&self) -> Option<Opening> {
        let innermost = self.open.last().copied();
        match (self.unclosed, innermost) {
            _ if self.quoted.is_some() => self.quoted,
            (_, Some(string)) if string.kind == TOKEN_STRING_START => {
                Some(
                    self.long
                        .filter(|_| string.range.len() == 1)
                        .unwrap_or(string),
                )
            }
            (Some(unclosed), _) => Some(unclosed),
            (None, Some(innermost)) => Some(self.suspect.unwrap_or(innermost)),
            (None, None) => None,
        }
    }

    // Returns the brackets that do not match, given the first token that closes nothing.
    fn mismatch(&self, extra: Option<TextRange>) -> Mismatch
        ensures { result.extra ≡ extra }
    {
        Mismatch {
            unclosed: self.unclosed(),
            extra,
            inherit: self.inherit,
        }
    }

    // Returns the starts of the braces that `:` or `@` follows, sorted.
    fn into_patterns(self) -> Result<Vec<usize>, AllocError> {
        let mut patterns = self.patterns;
        patterns.sort()?;
        Ok(patterns)
    }
}

/// The brackets of a text that do not match.
#[derive(Clone, Copy)]
pub struct Mismatch {
    /// The best guess at the opening that is never closed.
    pub unclosed: Option<Opening>,
    /// The first token that closes nothing.
    pub extra: Option<TextRange>,
    /// The last `inherit`, if no `;` follows it.
    pub inherit: Option<TextRange>,
}

/// The brackets of a text.
#[derive(Drop)]
pub struct Matching {
    /// Those that do not match.
    pub mismatch: Mismatch,
    /// The end of the last token other than trivia, 0 if there is none.
    pub end: usize,
    /// The kind of that token.
    pub last: Option<SyntaxKind>,
    // The starts of the braces that `:` or `@` follows, sorted.
    patterns: Vec<usize>,
}

impl Matching {
    /// Returns the brackets of an empty text.
    pub fn none(alloc: Global) -> Matching {
        Matching {
            mismatch: Mismatch {
                unclosed: None,
                extra: None,
                inherit: None,
            },
            end: 0,
            last: None,
            patterns: Vec::new(alloc),
        }
    }

    /// Returns whether the braces that start at an offset are those of a pattern, since `:` or `@` follows them.
    pub fn is_pattern(&self, start: usize) -> bool {
        self.patterns.binary_search(&start).is_ok()
    }
}

// Returns whether a token of the kind is trivia.
#[inline(always)]
fn is_trivia(kind: SyntaxKind) -> bool
    ensures { result ≡ is_trivia kind }
{
    matches!(kind, TOKEN_COMMENT | TOKEN_WHITESPACE)
}

/// Matches the brackets in a node. Also returns the `;` of the entries and `inherit`s in it, in order.
pub fn match_brackets(
    alloc: Global,
    node: &SyntaxNode<'_>,
) -> Result<(Matching, Vec<Semicolon>), AllocError>
    ensures matching { IfOk result (λ found. IsMatching node.now found.0) }
    ensures semicolons { IfOk result (λ found. found.1.items ≡ semicolons_of node.now) }
{
    let mut brackets = Brackets::new(alloc);
    let mut openings = Openings::new(alloc);
    let mut semicolons = Vec::new(alloc);
    let (mut end, mut last) = (0, None);
    for element in node.descendants_with_tokens() {
        if let NodeOrToken::Token(token) = element {
            let kind = token.kind();
            if !is_trivia(kind) {
                end = token.text_range().end();
                last = Some(kind);
            }
            add_semicolon(&token, kind, &mut semicolons)?;
            openings.read(&token, kind)?;
            brackets.read(&token, kind)?;
        }
    }
    let matching = Matching {
        mismatch: brackets.mismatch(openings.extra),
        end,
        last,
        patterns: brackets.into_patterns()?,
    };
    Ok((matching, semicolons))
}
