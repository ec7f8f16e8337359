//! The tokens of a text, one after another.

ghost use Rattle.std.specs.Prelude.{◌≡◌, ◌↔◌, ◌<◌, ℕ, Bool, List, [], Some, length, slice_index};
ghost use Rattle.std.specs.List.{prefix_len};
ghost use Rattle.rnix_kinds.specs.Lexical.Classes.{class_test};
ghost use Rattle.rnix_kinds.specs.Lexical.Longest.{IsLongest, IsRun, IsFirstPair, FitsRow, IsScheme, IsLongestContent};
ghost use Rattle.rnix_kinds.specs.Lexical.Operators.{HasRoom, operators, operator};
ghost use Rattle.rnix_kinds.specs.Lexical.Strings.{content_len};
ghost use Rattle.rnix_kinds.specs.Lexical.Texts.{before_pair};
ghost use Rattle.rnix_kinds.specs.Lexical.Ahead.{IsAhead};
ghost use Rattle.rnix_kinds.specs.Lexical.Tokens.{cut_at, tokens_under, tokens_of, CountsFit, IsPathGoingOn, IsCutOf, GivesNext, AreTokens, AreSound, Lexeme};
ghost use Rattle.rnix_kinds.specs.declared.kinds.SyntaxKind.{SyntaxKind};
ghost use Rattle.rnix_kinds.specs.declared.tokenizer.text.Class.TheVariants.{Scheme};

mod ahead;
mod lanes;
mod long;
mod modes;
mod normal;
mod number;
mod operator;
mod path;
mod rule;
mod space;
mod string;
mod text;
mod word;

use self::ahead::Ahead;
use self::modes::Modes;
use self::normal::normal;
use self::path::path;
use self::rule::{Cut, Mode};
use self::string::string;
use crate::kinds::SyntaxKind;
use std::alloc::{AllocError, Global};
use std::marker::Model;

/// The kind and the text of a token.
pub type Token<'a> = (SyntaxKind, &'a str);

/// Returns the token that begins the text.
#[tactic(auto, unfolding(crate::specs::Lexical::Tokens::cut_at))]
#[inline(always)]
fn cut_at(text: &str, top: Option<Mode>, ahead: &mut Ahead) -> Cut
    requires some { 0 < length text.now }
    requires room { HasRoom top }
    requires goes_on { IsPathGoingOn top text.now }
    requires ahead { IsAhead ahead.old text.now }
    ensures cut { result ≡ cut_at top text.now }
    ensures good { IsCutOf top text.now result }
    ensures ahead { IsAhead ahead.new text.now }
{
    match top {
        Some(Mode::Quoted(multiline)) => string(text, multiline),
        Some(Mode::Path(start)) => path(text, start),
        _ => normal(text, top, ahead),
    }
}

// The tokens of a text, one after another, are the text.
fn joined(modes: &Modes, text: &str)
    ensures { AreSound text.now (tokens_under modes.now text.now) }
{
    let _len = text.len();
    let _top = modes.top();
}

/// Iterates over the tokens of a text. In clauses its value is the list of the remaining tokens.
#[derive(Drop)]
pub struct Tokenizer<'a> {
    rest: &'a str,
    modes: Modes,
    ahead: Ahead,
}

impl<'a> Model for Tokenizer<'a> {
    ghost Value = { List (SyntaxKind × List ℕ) };

    ghost view = { λ t. tokens_under t.modes t.rest.now };

    ghost invariant = { λ t. CountsFit (length t.rest.now) t.modes × IsAhead t.ahead t.rest.now };
}

impl<'a> Tokenizer<'a> {
    pub fn new(alloc: Global, text: &'a str) -> Self
        ensures { result ≡ tokens_of text.now }
    {
        let len = text.len();
        Tokenizer {
            rest: text,
            modes: Modes::new(alloc),
            ahead: Ahead {
                step: len,
                scheme: len,
                angle: len,
            },
        }
    }

    /// Returns the remaining text. Its tokens are the remaining tokens.
    pub fn rest(&self) -> &'a str
        ensures { AreSound result.now self.now }
    {
        joined(&self.modes, self.rest);
        self.rest
    }

    /// Returns the next token. If an allocation fails, the next call returns the same token.
    #[inline(always)]
    pub fn next_token(&mut self) -> Option<Result<Token<'a>, AllocError>>
        ensures { GivesNext self.old result self.new }
    {
        let text = self.rest;
        if text.is_empty() {
            return None;
        }
        self.modes.leave_ended_paths(text);
        let cut = cut_at(text, self.modes.top(), &mut self.ahead);
        if let Err(error) = self.modes.change(cut.change) {
            return Some(Err(error));
        }
        let (token, rest) = text.split_at(cut.len);
        self.rest = rest;
        Some(Ok((cut.kind, token)))
    }
}

/// Returns an iterator over the tokens of a text.
pub fn tokenize(alloc: Global, text: &str) -> Tokenizer<'_>
    ensures { result ≡ tokens_of text.now }
{
    Tokenizer::new(alloc, text)
}

/// The lexical rules allow exactly one token list for each text.
pub fn one_list(text: &str)
    ensures are { AreTokens [] text.now (tokens_of text.now) }
    ensures only { (tokens : List Lexeme) → AreTokens [] text.now tokens → tokens ≡ tokens_of text.now }
    ensures whole { AreSound text.now (tokens_of text.now) }
{
    let _len = text.len();
}

/// By the definitions, runs, sequences of pieces and operators are as long as possible.
pub fn longest(text: &str, multiline: bool)
    ensures run { (test : ℕ → Bool) → IsLongest (IsRun test text.now) (prefix_len test text.now) }
    ensures content { IsLongestContent multiline text.now (content_len multiline text.now) }
    ensures comment { IsFirstPair 42 47 text.now (before_pair 42 47 text.now) }
    ensures operator { (cut : Cut) → operator text.now ≡ Some cut → IsLongest (FitsRow operators text.now) cut.len }
    ensures scheme { (slice_index text.now (prefix_len (class_test Scheme) text.now) ≡ 58) ↔ IsScheme text.now }
{
    let _len = text.len();
}

impl<'a> Iterator for Tokenizer<'a> {
    type Item = Result<Token<'a>, AllocError>;

    ghost next_gives = { GivesNext };

    fn next(&mut self) -> Option<Result<Token<'a>, AllocError>> {
        self.next_token()
    }
}
