//! Literals: numbers and URIs.

ghost use Rattle.std.specs.Prelude.{◌≡◌};
ghost use Rattle.rnix_kinds.specs.declared.kinds.SyntaxKind.TheVariants as k;
ghost use Rattle.rnix_green.specs.Equality.{same_kind};
ghost use Rattle.rnix_green.specs.Tree.{text_at};
ghost use Rattle.rnix_base.specs.Literal.{first_literal};

use crate::accessors::child_token;
use crate::typed_token::{TokenType, TypedToken};
use rnix_kinds::SyntaxKind;
use rnix_tree::SyntaxNode;
use std::num::{ParseFloatError, ParseIntError};
use std::str::FromStr;

/// The kinds of literals, with their tokens.
#[derive(Clone, Debug, PartialEq, Eq, Hash, Drop)]
pub enum LiteralKind<'t> {
    Float(Float<'t>),
    Integer(Integer<'t>),
    Uri(Uri<'t>),
}

/// A floating-point number: `1.5`.
pub type Float<'t> = TypedToken<'t, FloatType>;

/// The marker type of `Float`.
#[derive(Drop)]
pub enum FloatType {}

impl TokenType for FloatType {
    ghost kinds = { same_kind k.TOKEN_FLOAT };

    const NAME: &'static str = "Float";

    fn has_kind(kind: SyntaxKind) -> bool {
        kind == SyntaxKind::TOKEN_FLOAT
    }
}

impl<'t> Float<'t> {
    /// Returns the number as Rust parses its text, rounded to the nearest `f64`.
    pub fn value(&self) -> Result<f64, ParseFloatError>
        ensures { ⟦<f64 as FromStr>⟧.from_str_gives (text_at self.now) result }
    {
        self.syntax.text().parse()
    }
}

/// An integer: `42`.
pub type Integer<'t> = TypedToken<'t, IntegerType>;

/// The marker type of `Integer`.
#[derive(Drop)]
pub enum IntegerType {}

impl TokenType for IntegerType {
    ghost kinds = { same_kind k.TOKEN_INTEGER };

    const NAME: &'static str = "Integer";

    fn has_kind(kind: SyntaxKind) -> bool {
        kind == SyntaxKind::TOKEN_INTEGER
    }
}

impl<'t> Integer<'t> {
    /// Returns the number as Rust parses its text.
    pub fn value(&self) -> Result<i64, ParseIntError>
        ensures { ⟦<i64 as FromStr>⟧.from_str_gives (text_at self.now) result }
    {
        self.syntax.text().parse()
    }
}

/// An unquoted URI: `https://nixos.org`.
pub type Uri<'t> = TypedToken<'t, UriType>;

/// The marker type of `Uri`.
#[derive(Drop)]
pub enum UriType {}

impl TokenType for UriType {
    ghost kinds = { same_kind k.TOKEN_URI };

    const NAME: &'static str = "Uri";

    fn has_kind(kind: SyntaxKind) -> bool {
        kind == SyntaxKind::TOKEN_URI
    }
}

/// Returns the literal: the first float among the node's tokens, else the first integer, else the first URI.
pub fn first_literal<'t>(parent: &SyntaxNode<'t>) -> Option<LiteralKind<'t>>
    ensures { result ≡ first_literal parent.now }
{
    if let Some(float) = child_token::<Float<'t>>(parent) {
        return Some(LiteralKind::Float(float));
    }
    if let Some(integer) = child_token::<Integer<'t>>(parent) {
        return Some(LiteralKind::Integer(integer));
    }
    if let Some(uri) = child_token::<Uri<'t>>(parent) {
        return Some(LiteralKind::Uri(uri));
    }
    None
}
