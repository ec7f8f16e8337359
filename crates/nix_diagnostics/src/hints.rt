//! Guesses at what was meant.

use crate::foreign::{address_sign, is_of_json};
use crate::unexpected::UnexpectedToken;
use SyntaxKind::*;
use rnix::SyntaxKind;

/// A guess at what was meant, named after what was written.
#[derive(Clone, Copy, PartialEq, Eq)]
pub enum Hint {
    /// A `,` or `;` in a list.
    List,
    /// `=` in a list.
    NamedItem,
    /// `=` where two values are compared.
    Comparison,
    /// A second comparison of the same values.
    Chain,
    /// `==` or `:` where a name is bound.
    Binding,
    /// `:` after a name in quotes, in what looks like JSON.
    Json,
    /// `@` inside a word, as in an e-mail address.
    Address,
    /// `=` in a pattern.
    DefaultValue,
    /// No `,` between the names of a pattern.
    Commas,
    /// `,` at the end of an entry.
    Semicolons,
    /// A name without a value in a set.
    Entry,
    /// `...` before other parts of a pattern.
    Ellipsis,
    /// No `else`.
    ElseBranch,
    /// `=>`.
    Arrow,
    /// `//` where an expression or a name is expected.
    Comment,
    /// A keyword as the name of an attribute.
    KeywordName,
    /// A keyword as the name of an argument.
    KeywordArgument,
    /// Quotes other than `"`.
    Quotes,
    /// `&`.
    And,
    /// `|`.
    Or,
    /// `$` without braces.
    Interpolation,
    /// An invisible character.
    Invisible,
}

impl Hint {
    /// Returns the message, in one line.
    pub fn message(self) -> &'static str {
        match self {
            Hint::List => "list items are separated by white space alone",
            Hint::NamedItem => "a list has no names: \"{ name = value; }\" is a set",
            Hint::Comparison => "\"=\" binds a name; to compare, write \"==\"",
            Hint::Chain => "comparisons cannot be chained: put parentheses around the first",
            Hint::Binding => "to bind a name, write \"=\"",
            Hint::Json => "this looks like JSON: \"rnix json --to-nix\" turns it into Nix",
            Hint::Address => "to write a string, put it in quotes",
            Hint::DefaultValue => "in a pattern, a default is written \"name ? value\"",
            Hint::Commas => "the names of a pattern are separated by \",\"",
            Hint::Semicolons => "each entry of a set ends with \";\"",
            Hint::Entry => "an entry of a set is written \"name = value;\"",
            Hint::Ellipsis => "\"...\" is the last part of a pattern",
            Hint::ElseBranch => "each \"if\" needs its own \"else\"",
            Hint::Arrow =>
                "there is no \"=>\": a name is bound with \"=\", and a function is written \"name: value\"",
            Hint::Comment => "a comment starts with \"#\", or is enclosed in \"/*\" and \"*/\"",
            Hint::KeywordName =>
                "this is a keyword; as the name of an attribute, write it in quotes",
            Hint::KeywordArgument => "this is a keyword, so no argument can have this name",
            Hint::Quotes => "a string is written between \" and \", or between '' and ''",
            Hint::And => "did you mean \"&&\"?",
            Hint::Or => "did you mean \"||\"?",
            Hint::Interpolation => "an interpolation is written \"${name}\"",
            Hint::Invisible => "this character is invisible: delete it",
        }
    }
}

// Returns whether a token is a keyword.
fn is_keyword(kind: SyntaxKind) -> bool {
    matches!(
        kind,
        TOKEN_ASSERT
            | TOKEN_ELSE
            | TOKEN_IF
            | TOKEN_IN
            | TOKEN_INHERIT
            | TOKEN_LET
            | TOKEN_REC
            | TOKEN_THEN
            | TOKEN_WITH
    )
}

// Returns the hint for a text that is not a token.
fn unknown(text: &str) -> Option<Hint> {
    match text.chars().next() {
        Some('\'' | '`' | '\u{2018}'..='\u{201f}' | '\u{ab}' | '\u{bb}') => Some(Hint::Quotes),
        Some('&') => Some(Hint::And),
        Some('|') => Some(Hint::Or),
        Some('$') => Some(Hint::Interpolation),
        Some('\u{a0}' | '\u{ad}' | '\u{200b}'..='\u{200f}' | '\u{2060}' | '\u{feff}') => {
            Some(Hint::Invisible)
        }
        _ => None,
    }
}

// Returns whether a token is a `=` in a list.
fn is_named_item(unexpected: &UnexpectedToken<'_>) -> bool {
    unexpected.parent.kind() == NODE_LIST && unexpected.kind_after() != Some(TOKEN_MORE)
}

// Returns the hint for a token in a pattern, or in braces that were read as a set.
fn in_pattern(unexpected: &UnexpectedToken<'_>) -> Option<Hint> {
    match unexpected.token.kind() {
        TOKEN_ASSIGN => Some(Hint::DefaultValue),
        TOKEN_COMMA if unexpected.kind_before() == Some(TOKEN_ELLIPSIS) => Some(Hint::Ellipsis),
        TOKEN_COMMA if unexpected.expected == Some(TOKEN_SEMICOLON) => Some(Hint::DefaultValue),
        TOKEN_SEMICOLON | TOKEN_IDENT if unexpected.expected != Some(TOKEN_L_BRACE) => Some(
            Hint::Commas,
        ),
        kind if is_keyword(kind) => Some(Hint::KeywordArgument),
        _ => None,
    }
}

// Returns the hint for a token where another is expected.
fn instead_of(expected: SyntaxKind, unexpected: &UnexpectedToken<'_>) -> Option<Hint> {
    match (unexpected.token.kind(), expected) {
        (TOKEN_COLON, TOKEN_ASSIGN) if is_of_json(unexpected) => Some(Hint::Json),
        (TOKEN_EQUAL | TOKEN_COLON, TOKEN_ASSIGN) => Some(Hint::Binding),
        (TOKEN_SEMICOLON, TOKEN_ASSIGN) => Some(Hint::Entry),
        (TOKEN_COMMA, TOKEN_SEMICOLON) => Some(Hint::Semicolons),
        (TOKEN_ASSIGN, _) if unexpected.kind_after() == Some(TOKEN_MORE) => Some(Hint::Arrow),
        (TOKEN_ASSIGN, TOKEN_SEMICOLON) if unexpected.end_of_value().is_some() => None,
        (TOKEN_ASSIGN, TOKEN_THEN | TOKEN_ELSE | TOKEN_R_PAREN | TOKEN_SEMICOLON) => Some(
            Hint::Comparison,
        ),
        (TOKEN_SEMICOLON | TOKEN_R_BRACE | TOKEN_IN | TOKEN_THEN, TOKEN_ELSE) => Some(
            Hint::ElseBranch,
        ),
        (TOKEN_EQUAL | TOKEN_NOT_EQUAL | TOKEN_LESS | TOKEN_MORE, _) => Some(Hint::Chain),
        (TOKEN_LESS_OR_EQ | TOKEN_MORE_OR_EQ, _) => Some(Hint::Chain),
        _ => None,
    }
}

/// Returns what an unexpected token was meant to be, if there is a guess.
pub fn hint_of(unexpected: &UnexpectedToken<'_>) -> Option<Hint> {
    let kind = unexpected.token.kind();
    match kind {
        TOKEN_ERROR => return unknown(unexpected.token.text()),
        TOKEN_COMMA | TOKEN_SEMICOLON if unexpected.parent.kind() == NODE_LIST => return Some(
            Hint::List,
        ),
        TOKEN_ASSIGN if is_named_item(unexpected) => return Some(Hint::NamedItem),
        TOKEN_MORE if unexpected.kind_before() == Some(TOKEN_ASSIGN) => return Some(Hint::Arrow),
        TOKEN_UPDATE if unexpected.expects_expression() || unexpected.expects_name() => {
            return Some(Hint::Comment);
        }
        _ => {}
    }
    if address_sign(unexpected).is_some() {
        return Some(Hint::Address);
    }
    if unexpected.is_in_pattern {
        return in_pattern(unexpected);
    }
    let is_inherited = unexpected.parent.kind() == NODE_INHERIT;
    if unexpected.expects_name() && is_keyword(kind) && !is_inherited {
        return Some(Hint::KeywordName);
    }
    instead_of(unexpected.expected?, unexpected)
}
