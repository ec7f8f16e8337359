//! The tokens of a text, and how far they are read.

ghost use Rattle.std.specs.Prelude.{◌≡◌, ◌≤◌, ℕ, List, length, drop, IfOk, MatchOption, option_map};
ghost use Rattle.rnix_grammar.specs.AnnotatedForest.{placed_from, head_of, head_kind};
ghost use Rattle.rnix_grammar.specs.Layout.{from_item, tail_of, items};
ghost use Rattle.rnix_reader.specs.Placed.{token_of, ends_from, tokens_cut, start_of, IsItemFrom, AreEnds, AreInOrder, BeginsWithTrivia};

use rnix_kinds::{SyntaxKind, Tokenizer};
use std::alloc::{AllocError, Global};
use std::marker::Model;

// Initial capacity: one token for so many bytes of text.
const BYTES_PER_TOKEN: usize = 2;

// A text has fewer bytes, like the text of a tree.
const LIMIT: usize = 1 << 32;

/// A token with its range in bytes.
#[derive(Clone, Copy)]
pub(crate) struct PlacedToken<'t> {
    pub(crate) kind: SyntaxKind,
    pub(crate) text: &'t str,
    pub(crate) start: usize,
    pub(crate) end: usize,
}

// A token as it is stored: it begins where the one before it ends.
#[derive(Clone, Copy)]
struct TokenEnd {
    kind: SyntaxKind,
    end: u32,
}

const _: () = prove!(size_of::<TokenEnd>() == 8);

/// The remaining tokens.
#[derive(Drop)]
pub(crate) struct Cursor<'t> {
    text: &'t str,
    tokens: Vec<TokenEnd>,
    at: usize,
    // The index of the next item, so that looking at it does not scan trivia again.
    next: usize,
}

impl<'t> Model for Cursor<'t> {
    ghost use Rattle.std.specs.Prelude.{List, drop};
    ghost use Rattle.rnix_grammar.specs.AnnotatedForest.{Token};
    ghost use Rattle.rnix_reader.specs.Placed.{tokens_code, tokens_cut, IsCursor};

    ghost Value = { List Token };

    ghost coded = { tokens_code };

    ghost view = { λ c. drop c.at (tokens_cut c.text.now 0 c.tokens.items) };

    ghost invariant = { λ c. IsCursor c.text.now c.tokens.items c.at c.next };
}

// The kinds and the ends of the tokens.
fn token_ends(alloc: Global, tokens: Tokenizer<'_>) -> Result<Vec<TokenEnd>, AllocError>
    ensures { IfOk result (λ ends. ends.items ≡ ends_from 0 tokens.entry) }
{
    let mut tokens = tokens;
    let whole = tokens.rest().len();
    if whole >= LIMIT {
        return Err(AllocError);
    }
    let mut ends = Vec::with_capacity(alloc, whole / BYTES_PER_TOKEN)?;
    let mut end = 0;
    while let Some(token) = tokens.next_token() {
        let (kind, text) = token?;
        end += text.len();
        ends.push(TokenEnd {
            kind,
            end: end as u32,
        })?;
    }
    Ok(ends)
}

// Where the token at an index begins.
fn start_at(tokens: &[TokenEnd], at: usize) -> usize
    requires { at ≤ length tokens.now }
    ensures { result ≡ start_of 0 at tokens.now }
{
    if at == 0 {
        return 0;
    }
    tokens[at - 1].end as usize
}

// The token of the text at an index.
fn token_at<'t>(text: &'t str, tokens: &[TokenEnd], at: usize) -> Option<PlacedToken<'t>>
    requires { AreEnds text.now 0 tokens.now }
    ensures { option_map token_of result ≡ head_of (drop at (tokens_cut text.now 0 tokens.now)) }
{
    if at < tokens.len() {
        let TokenEnd { kind, end } = tokens[at];
        let (start, end) = (start_at(tokens, at), end as usize);
        return Some(PlacedToken {
            kind,
            text: &text[start..end],
            start,
            end,
        });
    }
    None
}

// The index of the first item from an index on.
fn item_from(tokens: &[TokenEnd], from: usize) -> usize
    ensures { (text : List ℕ) → IsItemFrom text tokens.now from result }
{
    let mut at = from;
    while at < tokens.len() {
        if !tokens[at].kind.is_trivia() {
            return at;
        }
        at += 1;
    }
    at
}

// The index of the item after an item.
fn behind_item(tokens: &[TokenEnd], at: usize) -> usize
    ensures { (text : List ℕ) →
        from_item (tail_of (drop at (tokens_cut text 0 tokens.now))) ≡ drop result (tokens_cut text 0 tokens.now) }
{
    if at < tokens.len() {
        return item_from(tokens, at + 1);
    }
    at
}

// The kind of the token at an index.
fn kind_at(tokens: &[TokenEnd], at: usize) -> Option<SyntaxKind>
    ensures { (text : List ℕ) → result ≡ head_kind (drop at (tokens_cut text 0 tokens.now)) }
{
    if at < tokens.len() {
        return Some(tokens[at].kind);
    }
    None
}

impl<'t> Cursor<'t> {
    /// Returns a cursor before the first token.
    pub(crate) fn new(alloc: Global, tokens: Tokenizer<'t>) -> Result<Self, AllocError>
        ensures { IfOk result (λ cursor. cursor ≡ placed_from 0 tokens.entry) }
    {
        let text = tokens.rest();
        let tokens = token_ends(alloc, tokens)?;
        let next = item_from(&tokens, 0);
        Ok(Cursor {
            text,
            tokens,
            at: 0,
            next,
        })
    }

    /// Returns the number of remaining tokens.
    pub(crate) fn len(&self) -> usize
        ensures { result ≡ length self.now }
    {
        self.tokens.len().saturating_sub(self.at)
    }

    /// Returns the next token.
    pub(crate) fn token(&self) -> Option<PlacedToken<'t>>
        ensures { option_map token_of result ≡ head_of self.now }
    {
        token_at(self.text, &self.tokens, self.at)
    }

    /// Returns the next token, if it is trivia.
    pub(crate) fn trivia(&self) -> Option<PlacedToken<'t>>
        ensures { MatchOption result (from_item self.now ≡ self.now) (λ t. BeginsWithTrivia (token_of t) self.now) }
    {
        if self.at < self.next {
            return self.token();
        }
        None
    }

    /// Returns the next token that is not trivia.
    pub(crate) fn item(&self) -> Option<PlacedToken<'t>>
        ensures { option_map token_of result ≡ head_of (from_item self.now) }
    {
        token_at(self.text, &self.tokens, self.next)
    }

    /// Returns the kind of the next item.
    pub(crate) fn first(&self) -> Option<SyntaxKind>
        ensures { result ≡ head_kind (items self.now) }
    {
        kind_at(&self.tokens, self.next)
    }

    /// Returns the kind of the second item.
    pub(crate) fn second(&self) -> Option<SyntaxKind>
        ensures { result ≡ head_kind (tail_of (items self.now)) }
    {
        kind_at(&self.tokens, behind_item(&self.tokens, self.next))
    }

    /// Returns the kind of the third item.
    pub(crate) fn third(&self) -> Option<SyntaxKind>
        ensures { result ≡ head_kind (tail_of (tail_of (items self.now))) }
    {
        let second = behind_item(&self.tokens, self.next);
        kind_at(&self.tokens, behind_item(&self.tokens, second))
    }

    /// Moves past the next token.
    #[inline(always)]
    pub(crate) fn advance(&mut self)
        ensures { self.new ≡ tail_of self.old }
    {
        if self.at < self.tokens.len() {
            self.at += 1;
            if self.next < self.at {
                self.next = item_from(&self.tokens, self.at);
            }
        }
    }

    /// The tokens are in order: none ends before it begins, or begins before the previous one ends.
    pub(crate) fn ordered(&self)
        ensures { AreInOrder 0 self.now }
    {
        let _next = self.next;
    }
}
