//! Parsing a whole text.

ghost use Rattle.std.specs.Prelude.{map, IfOk};
ghost use Rattle.rnix_grammar.specs.Fault.{fault_of};
ghost use Rattle.rnix_proof_lemmas.specs.Document.{IsRead};

use crate::cursor::Cursor;
use crate::parser::Parser;
use crate::pattern_names::Names;
use crate::reading::read_all;
use crate::turns::Uncounted;
use rnix_grammar::{ParseError, Position, ROOT};
use rnix_green::{GreenNode, TextBuilder};
use rnix_kinds::{SyntaxKind, Tokenizer};
use std::alloc::{AllocError, Global};

// Initial capacity: so many elements of the tree for each token.
const ELEMENTS_PER_TOKEN: usize = 2;

/// Reads the remaining tokens. Returns their tree, whose root is a NODE_ROOT, and the errors in the order in which they were found. Ranges are
/// counted in bytes from the first of these tokens.
pub fn read_tokens(
    alloc: Global,
    tokens: Tokenizer<'_>,
) -> Result<(GreenNode, Vec<ParseError>), AllocError>
    ensures { IfOk result (λ read. IsRead tokens.entry read.0 (map fault_of read.1.items)) }
{
    let text = tokens.rest();
    let cursor = Cursor::new(alloc, tokens)?;
    let mut builder = TextBuilder::new(alloc, text)?;
    builder.reserve(cursor.len().saturating_mul(ELEMENTS_PER_TOKEN))?;
    let mut p = Parser {
        cursor,
        builder,
        errors: Vec::new(alloc),
        prev_end: 0,
        marks: Vec::new(alloc),
    };
    let mut names = Names::new(alloc);
    let mut turns = Uncounted;
    let at = p.here();
    p.builder.start_node(SyntaxKind::NODE_ROOT)?;
    p.mark(Position::InRow(ROOT), 0, at)?;
    p.ordered();
    read_all(&mut p, &mut names, &mut turns)?;
    let Parser {
        cursor,
        builder,
        errors,
        prev_end: _,
        marks,
    } = p;
    drop(cursor);
    drop(marks);
    drop(names);
    let tree = builder.finish()?;
    Ok((tree, errors))
}
