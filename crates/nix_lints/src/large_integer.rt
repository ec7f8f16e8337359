//! Integers that are too large for Nix.

ghost use Rattle.std.specs.Prelude.{◌≡◌, option_map};
ghost use Rattle.rnix_kinds.specs.declared.kinds.SyntaxKind.TheVariants as k;
ghost use Rattle.rnix_green.specs.Equality.{same_kind};
ghost use Rattle.rnix_base.specs.Select.{token_of};
ghost use Rattle.nix_lints.specs.Found.{found_of};
ghost use Rattle.nix_lints.specs.LargeInteger.{digit, is_large, is_large_if, large_integer};

use crate::finding::Finding;
use nix_diagnostics::Code;
use rnix::ast::{AstToken, Integer};
use rnix::{SyntaxNode, SyntaxToken};
use rnix_base::child_token;

// The first integer that Nix does not read.
const LIMIT: u128 = 9_223_372_036_854_775_808;

// Returns the number that a digit stands for.
fn digit(byte: u8) -> u8
    ensures { result ≡ digit byte }
{
    byte.saturating_sub(b'0')
}

// Returns whether the integer with these digits is too large.
fn is_large(digits: &[u8]) -> bool
    ensures { result ≡ is_large digits.now }
{
    let mut number: u128 = 0;
    for byte in digits {
        number = number * 10 + u128::from(digit(*byte));
        if LIMIT <= number {
            return true;
        }
    }
    false
}

// Returns whether a literal is an integer that is too large.
fn is_large_literal(literal: &SyntaxNode<'_>) -> bool
    ensures { result ≡ is_large_if (token_of (same_kind k.TOKEN_INTEGER) literal.now) }
{
    match child_token::<Integer<'_>>(literal) {
        Some(integer) => is_large(integer.syntax().text().as_bytes()),
        None => false,
    }
}

/// Returns the finding on a literal, if it is an integer that Nix does not read.
pub fn large_integer(literal: &SyntaxNode<'_>) -> Option<Finding>
    ensures { option_map found_of result ≡ large_integer literal.now }
{
    let is_large = is_large_literal(literal);
    Finding::when(is_large, Code::LargeInteger, literal, None)
}
