//! Messages of errors.

ghost use Rattle.std.specs.Prelude.{◌<◌, length, IfOk, string_bytes};

use crate::brackets::Opening;
use crate::openings::closes;
use crate::words::{LONGEST, add_expected, add_found, add_quoted};
use rnix::ast::{AstNode, Attrpath, AttrpathValue};
use rnix::{ParseError, SyntaxKind, SyntaxNode};
use std::alloc::{AllocError, Global};

// Returns the words that say where in its node a token is missing.
fn context(expected: SyntaxKind, parent: SyntaxKind) -> &'static str {
    match (expected, parent) {
        (SyntaxKind::TOKEN_SEMICOLON, SyntaxKind::NODE_WITH) => " after the set of \"with\"",
        (SyntaxKind::TOKEN_SEMICOLON, SyntaxKind::NODE_ASSERT) => " after the condition",
        (SyntaxKind::TOKEN_SEMICOLON, SyntaxKind::NODE_INHERIT) => " after the inherited names",
        (SyntaxKind::TOKEN_THEN, _) => " after the condition",
        (SyntaxKind::TOKEN_ELSE, _) => " after the value for \"then\"",
        (SyntaxKind::TOKEN_COLON, _) => " after the parameter",
        (SyntaxKind::TOKEN_R_PAREN, _) => " to close \"(\"",
        (SyntaxKind::TOKEN_INTERPOL_END, _) => " to close \"${\"",
        (SyntaxKind::TOKEN_L_BRACE, _) => " after \"@\"",
        _ => "",
    }
}

// Adds where in an entry a token is missing. A name that is long or spans several lines is not quoted.
fn add_entry(
    expected: SyntaxKind,
    path: &Attrpath<'_>,
    text: &mut String,
) -> Result<(), AllocError> {
    let name = path.syntax().text();
    let is_long = name.len() > LONGEST || name.contains('\n');
    match expected {
        SyntaxKind::TOKEN_SEMICOLON if is_long => return text.push_str(" after the value"),
        SyntaxKind::TOKEN_ASSIGN if is_long => return text.push_str(" after the name"),
        SyntaxKind::TOKEN_SEMICOLON => text.push_str(" after the value of ")?,
        SyntaxKind::TOKEN_ASSIGN => text.push_str(" after ")?,
        _ => return Ok(()),
    }
    add_quoted(name, text)
}

// Adds where the missing token belongs; in an entry with the entry's name.
fn add_context(
    expected: SyntaxKind,
    parent: SyntaxNode<'_>,
    text: &mut String,
) -> Result<(), AllocError> {
    text.push_str(context(expected, parent.kind()))?;
    match AttrpathValue::cast(parent).and_then(|entry| entry.attrpath()) {
        Some(path) => add_entry(expected, &path, text),
        None => Ok(()),
    }
}

// Adds where a token is missing, and what was found in its place.
fn add_unexpected(
    expected: &[SyntaxKind],
    node: &SyntaxNode<'_>,
    text: &mut String,
) -> Result<(), AllocError> {
    if let (Some(kind), Some(parent)) = (expected.first(), node.parent()) {
        add_context(*kind, parent, text)?;
    }
    if let Some(token) = node.first_token() {
        let is_string = node
            .parent()
            .is_some_and(|parent| parent.kind() == SyntaxKind::NODE_STRING);
        if is_string && token.kind() == SyntaxKind::TOKEN_ERROR {
            return text.push_str(", found the end of the file");
        }
        text.push_str(", found ")?;
        add_found(&token, text)?;
    }
    Ok(())
}

// Returns the first words of the message of an error, or of the message that a bracket is missing.
fn headline(error: &ParseError, is_bracket: bool) -> &'static str
    ensures { 0 < length result.now }
{
    match error {
        _ if is_bracket => "missing ",
        ParseError::UnexpectedWanted(..) | ParseError::UnexpectedEOFWanted(_) => "expected ",
        ParseError::UnexpectedExtra(_) => "expected the end of the file",
        ParseError::DuplicatedArgs(..) => "duplicate argument ",
        ParseError::UnexpectedDoubleBind(_) => "this pattern already has a name",
        ParseError::UnexpectedEOF => "expected more, found the end of the file",
        ParseError::RecursionLimitExceeded => "expressions are nested more than 512 deep",
        ParseError::Unexpected(_) => "this is not Nix",
    }
}

// Initial capacity of the rest of a message, in bytes: most are shorter.
const CAPACITY: usize = 80;

// Returns the bracket, in quotes, that closes an opening.
fn closing_bracket(opener: SyntaxKind) -> Option<&'static str> {
    match opener {
        SyntaxKind::TOKEN_L_BRACE | SyntaxKind::TOKEN_INTERPOL_START => Some("\"}\""),
        SyntaxKind::TOKEN_L_BRACK => Some("\"]\""),
        SyntaxKind::TOKEN_L_PAREN => Some("\")\""),
        _ => None,
    }
}

// The number of nodes from an error's node to the set whose entry it begins.
const MAX_AROUND: usize = 4;

// Returns whether the node of an error is where an item of the list, or an entry of the set, of an opening would begin, and begins with a token that ends
// something around that.
fn ends_outer(node: &SyntaxNode<'_>, opening: Opening) -> bool {
    let Some(token) = node.first_token() else {
        return false;
    };
    if !closes(token.kind()) && token.kind() != SyntaxKind::TOKEN_SEMICOLON {
        return false;
    }
    let start = node.text_range().start();
    for around in node.ancestors().take(MAX_AROUND) {
        let own = around.text_range().start();
        match around.kind() {
            SyntaxKind::NODE_LIST | SyntaxKind::NODE_ATTR_SET => {
                return own == opening.range.start();
            }
            _ if own != start => return false,
            _ => {}
        }
    }
    false
}

// Returns the bracket that is missing at an error, given what is never closed: at the end of the text, or before a token that ends something around it.
fn missing_bracket(
    error: &ParseError,
    node: Option<&SyntaxNode<'_>>,
    unclosed: Option<Opening>,
) -> Option<&'static str> {
    let opening = unclosed?;
    let is_missing = match error {
        ParseError::UnexpectedEOF | ParseError::UnexpectedEOFWanted(_) => true,
        ParseError::UnexpectedWanted(..) => node.is_some_and(|node| ends_outer(node, opening)),
        _ => false,
    };
    closing_bracket(opening.kind).filter(|_| is_missing)
}

// Returns the rest of the message that a bracket is missing: the bracket, and what was found.
fn missing(
    alloc: Global,
    bracket: &str,
    node: Option<&SyntaxNode<'_>>,
) -> Result<String, AllocError> {
    let mut text = String::with_capacity(alloc, CAPACITY)?;
    text.push_str(bracket)?;
    match node {
        Some(node) => add_unexpected(&[], node, &mut text)?,
        None => text.push_str(", found the end of the file")?,
    }
    Ok(text)
}

// Returns the rest of the message: what was expected, where, and what was found.
fn details(
    alloc: Global,
    error: &ParseError,
    node: Option<&SyntaxNode<'_>>,
) -> Result<String, AllocError> {
    let mut text = String::with_capacity(alloc, CAPACITY)?;
    match error {
        ParseError::UnexpectedWanted(_, _, expected) => {
            add_expected(expected, &mut text)?;
            if let Some(node) = node {
                add_unexpected(expected, node, &mut text)?;
            }
        }
        ParseError::UnexpectedExtra(_) => {
            if let Some(node) = node {
                add_unexpected(&[], node, &mut text)?;
            }
        }
        ParseError::UnexpectedEOFWanted(expected) => {
            add_expected(expected, &mut text)?;
            text.push_str(", found the end of the file")?;
        }
        _ => {}
    }
    Ok(text)
}

// Returns a headline followed by a name in quotes.
fn with_name(alloc: Global, headline: &str, name: &str) -> Result<String, AllocError>
    ensures { IfOk result (λ text. 0 < length (string_bytes text)) }
{
    let room = headline.len().saturating_add(name.len()).saturating_add(2);
    let mut text = String::with_capacity(alloc, room)?;
    text.push_str(headline)?;
    text.push('"')?;
    text.push_str(name)?;
    text.push('"')?;
    Ok(text)
}

/// Returns the message of an error, given its error node and what is open there and never closed.
pub fn message(
    alloc: Global,
    error: &ParseError,
    node: Option<&SyntaxNode<'_>>,
    unclosed: Option<Opening>,
) -> Result<String, AllocError>
    ensures { IfOk result (λ text. 0 < length (string_bytes text)) }
{
    // A text may repeat many arguments, so their messages are made without a second text.
    if let ParseError::DuplicatedArgs(_, name) = error {
        return with_name(alloc, headline(error, false), name.as_str());
    }
    let bracket = missing_bracket(error, node, unclosed);
    let details = match bracket {
        Some(bracket) => missing(alloc, bracket, node)?,
        None => details(alloc, error, node)?,
    };
    let headline = headline(error, bracket.is_some());
    let mut text = String::with_capacity(alloc, headline.len().saturating_add(details.len()))?;
    text.push_str(headline)?;
    text.push_str(details.as_str())?;
    Ok(text)
}
