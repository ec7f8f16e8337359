//! The operators.

ghost use Rattle.std.specs.Prelude.{◌≡◌};
ghost use Rattle.rnix_green.specs.Walk.{children_of};
ghost use Rattle.rnix_base.specs.Select.{tokens_in};
ghost use Rattle.rnix_base.specs.TokenOperators.{binary_operator, unary_operator, EachHasOneKind, first_operator};

use rnix_kinds::SyntaxKind;
use rnix_tree::{NodeOrToken, SyntaxNode};

/// A binary operator.
#[derive(Clone, Copy, Debug, PartialEq, Eq, Hash)]
pub enum BinOpKind {
    Concat,
    Update,
    Add,
    Sub,
    Mul,
    Div,
    And,
    Equal,
    Implication,
    Less,
    LessOrEq,
    More,
    MoreOrEq,
    NotEqual,
    Or,
    PipeRight,
    PipeLeft,
}

/// A prefix operator.
#[derive(Clone, Copy, Debug, PartialEq, Eq, Hash)]
pub enum UnaryOpKind {
    Invert,
    Negate,
}

impl BinOpKind {
    /// Returns the operator of a kind of token, if it is one. No two kinds have the same operator.
    #[tactic(auto, using(crate::proofs::OperatorLemmas::binary_has_one_kind))]
    pub fn from_kind(kind: SyntaxKind) -> Option<Self>
        ensures operator { result ≡ binary_operator kind }
        ensures one_kind { EachHasOneKind binary_operator }
    {
        match kind {
            SyntaxKind::TOKEN_CONCAT => Some(BinOpKind::Concat),
            SyntaxKind::TOKEN_UPDATE => Some(BinOpKind::Update),
            SyntaxKind::TOKEN_ADD => Some(BinOpKind::Add),
            SyntaxKind::TOKEN_SUB => Some(BinOpKind::Sub),
            SyntaxKind::TOKEN_MUL => Some(BinOpKind::Mul),
            SyntaxKind::TOKEN_DIV => Some(BinOpKind::Div),
            SyntaxKind::TOKEN_AND_AND => Some(BinOpKind::And),
            SyntaxKind::TOKEN_EQUAL => Some(BinOpKind::Equal),
            SyntaxKind::TOKEN_IMPLICATION => Some(BinOpKind::Implication),
            SyntaxKind::TOKEN_LESS => Some(BinOpKind::Less),
            SyntaxKind::TOKEN_LESS_OR_EQ => Some(BinOpKind::LessOrEq),
            SyntaxKind::TOKEN_MORE => Some(BinOpKind::More),
            SyntaxKind::TOKEN_MORE_OR_EQ => Some(BinOpKind::MoreOrEq),
            SyntaxKind::TOKEN_NOT_EQUAL => Some(BinOpKind::NotEqual),
            SyntaxKind::TOKEN_OR_OR => Some(BinOpKind::Or),
            SyntaxKind::TOKEN_PIPE_RIGHT => Some(BinOpKind::PipeRight),
            SyntaxKind::TOKEN_PIPE_LEFT => Some(BinOpKind::PipeLeft),
            _ => None,
        }
    }
}

impl UnaryOpKind {
    /// Returns the operator of a kind of token, if it is one. No two kinds have the same operator.
    #[tactic(auto, using(crate::proofs::OperatorLemmas::unary_has_one_kind))]
    pub fn from_kind(kind: SyntaxKind) -> Option<Self>
        ensures operator { result ≡ unary_operator kind }
        ensures one_kind { EachHasOneKind unary_operator }
    {
        match kind {
            SyntaxKind::TOKEN_INVERT => Some(UnaryOpKind::Invert),
            SyntaxKind::TOKEN_SUB => Some(UnaryOpKind::Negate),
            _ => None,
        }
    }
}

/// Returns the first binary operator among the node's own tokens.
pub fn first_binary(parent: &SyntaxNode<'_>) -> Option<BinOpKind>
    ensures { result ≡ first_operator binary_operator (tokens_in (children_of parent.now)) }
{
    let mut elements = parent.children_with_tokens();
    while let Some(element) = elements.next() {
        if let NodeOrToken::Token(token) = element {
            if let Some(operator) = BinOpKind::from_kind(token.kind()) {
                return Some(operator);
            }
        }
    }
    None
}

/// Returns the first prefix operator among the node's own tokens.
pub fn first_unary(parent: &SyntaxNode<'_>) -> Option<UnaryOpKind>
    ensures { result ≡ first_operator unary_operator (tokens_in (children_of parent.now)) }
{
    let mut elements = parent.children_with_tokens();
    while let Some(element) = elements.next() {
        if let NodeOrToken::Token(token) = element {
            if let Some(operator) = UnaryOpKind::from_kind(token.kind()) {
                return Some(operator);
            }
        }
    }
    None
}
