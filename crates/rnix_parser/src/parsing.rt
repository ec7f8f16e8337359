//! Parsing tokens.

ghost use Rattle.std.specs.Prelude.{map, IfOk};
ghost use Rattle.rnix_grammar.specs.Fault.{fault_of};
ghost use Rattle.rnix_grammar.specs.Parsed.{IsParsed};

use rnix_grammar::ParseError;
use rnix_green::GreenNode;
use rnix_kinds::Tokenizer;
use rnix_reader::read_tokens;
use std::alloc::{AllocError, Global};

/// Returns the tree of the remaining tokens, whose root is a NODE_ROOT, and the errors in the order in which they were found. Ranges are counted in
/// bytes from the first of these tokens.
pub fn parse(
    alloc: Global,
    tokens: Tokenizer<'_>,
) -> Result<(GreenNode, Vec<ParseError>), AllocError>
    ensures { IfOk result (λ parsed. IsParsed tokens.entry parsed.0 (map fault_of parsed.1.items)) }
{
    // This call computes nothing. Its contract says that the state of the tokenizer agrees with the remaining text.
    let _text = tokens.rest();
    read_tokens(alloc, tokens)
}
