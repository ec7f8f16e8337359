//! Where a run of unwanted tokens stops, and what is wanted there.

ghost use Rattle.std.specs.Prelude.{◌≡◌};
ghost use Rattle.rnix_grammar.specs.Tables.{stops, is_wanted, wanted_kinds, operand_kinds};

use rnix_kinds::SyntaxKind;

/// The set of tokens that are expected at a position. A run of other tokens stops before one of the set, or at the end of the text.
#[derive(Clone, Copy)]
pub enum ExpectedSet {
    RParen,
    LBrace,
    RBrace,
    Semicolon,
    Assign,
    Colon,
    Then,
    Else,
    InterpolEnd,
    StringEnd,
    Ident,
    /// What a string may contain.
    Piece,
    /// What begins a name in an attribute path.
    Attr,
    /// What a pattern may contain.
    Entry,
    /// Only the end of the text.
    End,
}

/// Returns the kinds that are wanted where a run stops, as errors list them.
pub fn wanted_kinds(until: ExpectedSet) -> &'static [SyntaxKind]
    ensures { result.now ≡ wanted_kinds until }
{
    match until {
        ExpectedSet::RParen => &[SyntaxKind::TOKEN_R_PAREN],
        ExpectedSet::LBrace => &[SyntaxKind::TOKEN_L_BRACE],
        ExpectedSet::RBrace => &[SyntaxKind::TOKEN_R_BRACE],
        ExpectedSet::Semicolon => &[SyntaxKind::TOKEN_SEMICOLON],
        ExpectedSet::Assign => &[SyntaxKind::TOKEN_ASSIGN],
        ExpectedSet::Colon => &[SyntaxKind::TOKEN_COLON],
        ExpectedSet::Then => &[SyntaxKind::TOKEN_THEN],
        ExpectedSet::Else => &[SyntaxKind::TOKEN_ELSE],
        ExpectedSet::InterpolEnd => &[SyntaxKind::TOKEN_INTERPOL_END],
        ExpectedSet::StringEnd => &[SyntaxKind::TOKEN_STRING_END],
        ExpectedSet::Ident => &[SyntaxKind::TOKEN_IDENT],
        ExpectedSet::Piece => &[
            SyntaxKind::TOKEN_STRING_END,
            SyntaxKind::TOKEN_STRING_CONTENT,
            SyntaxKind::TOKEN_INTERPOL_START,
        ],
        ExpectedSet::Attr => &[
            SyntaxKind::TOKEN_IDENT,
            SyntaxKind::TOKEN_OR,
            SyntaxKind::TOKEN_CUR_POS,
        ],
        ExpectedSet::Entry => &[
            SyntaxKind::TOKEN_R_BRACE,
            SyntaxKind::TOKEN_ELLIPSIS,
            SyntaxKind::TOKEN_IDENT,
        ],
        ExpectedSet::End => &[],
    }
}

/// Returns whether a token of the kind is wanted.
pub fn is_wanted(until: ExpectedSet, kind: SyntaxKind) -> bool
    ensures { result ≡ is_wanted until kind }
{
    wanted_kinds(until).contains(&kind)
}

/// Returns whether a run stops before the next token that is not trivia.
pub fn stops(until: ExpectedSet, next: Option<SyntaxKind>) -> bool
    ensures { result ≡ stops until next }
{
    match next {
        None => true,
        Some(kind) => is_wanted(until, kind),
    }
}

/// Returns the kinds that are wanted where an operand should begin, as errors list them.
pub fn operand_kinds() -> &'static [SyntaxKind]
    ensures { result.now ≡ operand_kinds }
{
    &[
        SyntaxKind::TOKEN_L_PAREN,
        SyntaxKind::TOKEN_REC,
        SyntaxKind::TOKEN_L_BRACE,
        SyntaxKind::TOKEN_L_BRACK,
        SyntaxKind::TOKEN_STRING_START,
        SyntaxKind::TOKEN_IDENT,
    ]
}
