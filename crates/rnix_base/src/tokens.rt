//! Tokens of trivia and of strings.

ghost use Rattle.std.specs.Prelude.{◌≡◌, ℕ, List, MatchOption};
ghost use Rattle.rnix_kinds.specs.declared.kinds.SyntaxKind.TheVariants as k;
ghost use Rattle.rnix_green.specs.Equality.{same_kind};
ghost use Rattle.rnix_green.specs.Tree.{text_at};
ghost use Rattle.rnix_base.specs.Comment.{IsBlock, Says};

use crate::typed_token::{TokenType, TypedToken};
use rnix_kinds::SyntaxKind;

/// White space between other tokens.
pub type Whitespace<'t> = TypedToken<'t, WhitespaceType>;

/// The marker type of `Whitespace`.
#[derive(Drop)]
pub enum WhitespaceType {}

impl TokenType for WhitespaceType {
    ghost kinds = { same_kind k.TOKEN_WHITESPACE };

    const NAME: &'static str = "Whitespace";

    fn has_kind(kind: SyntaxKind) -> bool {
        kind == SyntaxKind::TOKEN_WHITESPACE
    }
}

/// A comment: `# text` or `/* text */`.
pub type Comment<'t> = TypedToken<'t, CommentType>;

/// The marker type of `Comment`.
#[derive(Drop)]
pub enum CommentType {}

impl TokenType for CommentType {
    ghost kinds = { same_kind k.TOKEN_COMMENT };

    const NAME: &'static str = "Comment";

    fn has_kind(kind: SyntaxKind) -> bool {
        kind == SyntaxKind::TOKEN_COMMENT
    }
}

// Returns the text between `/*` and `*/`, if the text is a block comment.
fn inside_block(text: &str) -> Option<&str>
    ensures { MatchOption result ((said : List ℕ) → ¬ IsBlock text.now said) (λ said. IsBlock text.now said.now) }
{
    text.strip_prefix("/*")?.strip_suffix("*/")
}

// Returns the text of comments.
fn said(text: &str) -> &str
    ensures { Says text.now result.now }
{
    if let Some(line) = text.strip_prefix('#') {
        return line;
    }
    match inside_block(text) {
        Some(said) => said,
        None => text,
    }
}

impl<'t> Comment<'t> {
    /// Returns the text after `#`, or between `/*` and `*/`. A text of neither form is returned whole.
    pub fn text(&self) -> &'t str
        ensures { Says (text_at self.now) result.now }
    {
        said(self.syntax.text())
    }
}

/// A piece of a string's content, as written, without quotes and interpolations.
pub type StrContent<'t> = TypedToken<'t, StrContentType>;

/// The marker type of `StrContent`.
#[derive(Drop)]
pub enum StrContentType {}

impl TokenType for StrContentType {
    ghost kinds = { same_kind k.TOKEN_STRING_CONTENT };

    const NAME: &'static str = "StrContent";

    fn has_kind(kind: SyntaxKind) -> bool {
        kind == SyntaxKind::TOKEN_STRING_CONTENT
    }
}
