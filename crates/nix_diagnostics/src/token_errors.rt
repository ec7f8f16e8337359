//! Kinds of errors.

ghost use Rattle.std.specs.Prelude.{◌≡◌};
ghost use Rattle.std.specs.List.{list_all};
ghost use Rattle.rnix_grammar.specs.Fault.{fault_of};
ghost use Rattle.nix_diagnostics.specs.TokenErrors.{is_token_error, is_repeated_name};

use rnix::ParseError;

/// Returns whether an error is a token error: neither about a repeated argument nor about tokens after the expression.
pub fn is_token_error(error: &ParseError) -> bool
    ensures { result ≡ is_token_error (fault_of error.now) }
{
    !matches!(
        error,
        ParseError::UnexpectedExtra(_) | ParseError::DuplicatedArgs(..)
    )
}

/// Returns whether all errors are about names that a pattern repeats.
pub fn are_repeated_names(errors: &[ParseError]) -> bool
    ensures { result ≡ list_all (λ error. is_repeated_name (fault_of error)) errors.now }
{
    errors.iter().all(
        |error: &ParseError| -> bool
            ensures { result ≡ is_repeated_name (fault_of error.now) }
        { matches!(error, ParseError::DuplicatedArgs(..)) },
    )
}
