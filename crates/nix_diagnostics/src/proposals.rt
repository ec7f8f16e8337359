//! Replacements that hints propose.

use crate::foreign::address_sign;
use crate::hints::Hint;
use crate::near::{text_before, word_around};
use crate::replacement::Replacement;
use crate::unexpected::UnexpectedToken;
use SyntaxKind::*;
use rnix::ast::{AstNode, AttrpathValue, BinOp, BinOpKind};
use rnix::{SyntaxKind, SyntaxNode, SyntaxToken, TextRange};

// The number of nodes in which the comparison before another operator is searched for.
const MAX_AROUND: usize = 64;

// Writes a text for a token.
fn instead(token: &SyntaxToken<'_>, text: &'static str) -> Option<Replacement> {
    Some(Replacement::new(token.text_range(), text))
}

// Writes quotes around a range.
fn in_quotes(range: TextRange) -> Replacement {
    Replacement {
        range,
        before: "\"",
        kept: range,
        after: "\"",
    }
}

// Writes `=` for `==` or `:`, after a space if none precedes it.
fn binding(unexpected: &UnexpectedToken<'_>) -> Option<Replacement> {
    let range = unexpected.token.text_range();
    let before = unexpected.before.as_ref()?;
    let touches = before.text_range().end() == range.start();
    Some(Replacement::new(range, if touches { " =" } else { "=" }))
}

// Removes a token, or makes it a space if the next item follows at once.
fn removal(unexpected: &UnexpectedToken<'_>) -> Replacement {
    let is_independent = unexpected.kind_after() == Some(TOKEN_WHITESPACE);
    let text = if is_independent { "" } else { " " };
    Replacement::new(unexpected.token.text_range(), text)
}

// Writes `?` for the `=` of a default. If the parser found an entry, the unexpected token is the one after its value.
fn default_value(unexpected: &UnexpectedToken<'_>) -> Option<Replacement> {
    if unexpected.token.kind() == TOKEN_ASSIGN {
        return instead(&unexpected.token, "?");
    }
    let entry = AttrpathValue::cast(unexpected.parent.clone())?;
    let sign = entry.assign_token()?;
    instead(&sign, "?")
}

// Writes `,` for `;`, or after the previous name.
fn comma(unexpected: &UnexpectedToken<'_>) -> Option<Replacement> {
    if unexpected.token.kind() == TOKEN_SEMICOLON {
        return instead(&unexpected.token, ",");
    }
    let before = unexpected.before.as_ref()?;
    Some(Replacement::insertion(before.text_range().end(), ","))
}

// Writes `=` for a `=>` that binds a name, and `:` for the `=>` of a function.
fn arrow(unexpected: &UnexpectedToken<'_>) -> Option<Replacement> {
    let range = unexpected.token.text_range();
    if unexpected.token.kind() == TOKEN_MORE {
        return Some(Replacement::new(range, ""));
    }
    let rest = unexpected.token.next_token()?;
    Some(Replacement::new(range.cover(rest.text_range()), ":"))
}

// Writes `${` and `}` around a name after `$`.
fn interpolation(unexpected: &UnexpectedToken<'_>) -> Option<Replacement> {
    let name = unexpected.token.next_token()?;
    if name.kind() != TOKEN_IDENT {
        return None;
    }
    Some(Replacement {
        range: unexpected.token.text_range().cover(name.text_range()),
        before: "${",
        kept: name.text_range(),
        after: "}",
    })
}

// Returns whether a node compares two values.
fn is_comparison(node: &SyntaxNode<'_>) -> bool {
    let operator = BinOp::cast(node.clone()).and_then(|operation| operation.operator());
    matches!(
        operator,
        Some(
            BinOpKind::Equal
                | BinOpKind::NotEqual
                | BinOpKind::Less
                | BinOpKind::LessOrEq
                | BinOpKind::More
                | BinOpKind::MoreOrEq
        )
    )
}

// Writes parentheses around the comparison before another operator.
fn parentheses(unexpected: &UnexpectedToken<'_>) -> Option<Replacement> {
    let before = unexpected.before.as_ref()?;
    let end = before.text_range().end();
    for node in before.parent_ancestors().take(MAX_AROUND) {
        let range = node.text_range();
        if range.end() == end && is_comparison(&node) {
            return Some(Replacement {
                range,
                before: "(",
                kept: range,
                after: ")",
            });
        }
    }
    None
}

// Returns the quote that closes what another one opens.
fn closing_quote(quote: char) -> char {
    match quote {
        '\u{2018}' => '\u{2019}',
        '\u{201c}' => '\u{201d}',
        '\u{ab}' => '\u{bb}',
        _ => quote,
    }
}

// Returns whether a text needs no escapes in a string.
fn is_plain(text: &str) -> bool {
    !text.contains('\n') && !text.contains('"') && !text.contains('\\') && !text.contains('$')
}

// Writes `"` for the quotes around a text on one line.
fn quotes(token: &SyntaxToken<'_>, text: &str) -> Option<Replacement> {
    let (quote, range) = (token.text().chars().next()?, token.text_range());
    let start = range.start().checked_add(quote.len_utf8())?;
    let closing = closing_quote(quote);
    let content = text_before(text, start, closing).filter(|content| is_plain(content))?;
    let kept = TextRange::empty(start).cover_offset(start.checked_add(content.len())?);
    let end = kept.end().checked_add(closing.len_utf8())?;
    Some(Replacement {
        range: range.cover_offset(end),
        before: "\"",
        kept,
        after: "\"",
    })
}

// Writes quotes around the word that contains a `@`.
fn address(unexpected: &UnexpectedToken<'_>, text: &str) -> Option<Replacement> {
    let sign = address_sign(unexpected)?;
    let word = word_around(text, sign.text_range().start())?;
    Some(in_quotes(word))
}

// Writes a space for a no-break space, and nothing for other invisible characters.
fn visible(token: &SyntaxToken<'_>) -> Replacement {
    let is_space = token.text().starts_with('\u{a0}');
    Replacement::new(token.text_range(), if is_space { " " } else { "" })
}

/// Returns the replacement that a hint about an unexpected token proposes.
pub fn proposal(hint: Hint, unexpected: &UnexpectedToken<'_>, text: &str) -> Option<Replacement> {
    let token = &unexpected.token;
    match hint {
        Hint::List => Some(removal(unexpected)),
        // After a call, the `=` may also be that of the next entry.
        Hint::Comparison if unexpected.call_in_value().is_some() => None,
        Hint::Comparison => instead(token, "=="),
        Hint::Binding => binding(unexpected),
        Hint::DefaultValue => default_value(unexpected),
        Hint::Commas => comma(unexpected),
        Hint::Semicolons => instead(token, ";"),
        Hint::Arrow => arrow(unexpected),
        Hint::Comment => instead(token, "#"),
        Hint::KeywordName => Some(in_quotes(token.text_range())),
        Hint::Quotes => quotes(token, text),
        Hint::And => instead(token, "&&"),
        Hint::Or => instead(token, "||"),
        Hint::Interpolation => interpolation(unexpected),
        Hint::Invisible => Some(visible(token)),
        Hint::Chain => parentheses(unexpected),
        Hint::Address => address(unexpected, text),
        Hint::Entry | Hint::Ellipsis | Hint::ElseBranch | Hint::KeywordArgument => None,
        Hint::Json | Hint::NamedItem => None,
    }
}
