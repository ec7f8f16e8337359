//! Printing the errors and the tree of a text.

ghost use Rattle.std.specs.Prelude.{◌≡◌, map, OnOk, IfOk, Err};
ghost use Rattle.std.specs.Io.KnownBytes.{Appends};
ghost use Rattle.rnix_grammar.specs.Fault.{fault_of};
ghost use Rattle.rnix_print.specs.declared.printing.PrintError.TheVariants as refused;
ghost use Rattle.rnix_print.specs.OutputLines.{output};
ghost use Rattle.rnix_print.specs.Printed.{IsPrinted};

use crate::error_lines::write_errors;
use crate::tree_lines::write_tree;
use rnix_grammar::ParseError;
use rnix_kinds::tokenize;
use rnix_parser::parse;
use rnix_tree::{GreenNode, SyntaxNode};
use std::alloc::{AllocError, Global};
use std::io;
use std::io::Write;

/// The reason why a text was not printed.
#[derive(Drop)]
pub enum PrintError {
    /// An allocation failed before anything was written.
    Memory,
    /// The output could not be written.
    Write(io::Error),
}

impl From<PrintError> for io::Error {
    fn from(error: PrintError) -> io::Error {
        match error {
            PrintError::Memory => io::Error::from(AllocError),
            PrintError::Write(error) => error,
        }
    }
}

// Prints the errors, and then the tree.
fn print<W: Write>(tree: &GreenNode, errors: &[ParseError], out: &mut W) -> io::Result<()>
    ensures { OnOk result (Appends (W.contents out.old) (W.contents out.new) (output tree.now (map fault_of errors.now))) }
{
    write_errors(errors, out)?;
    write_tree(&SyntaxNode::new_root(tree), out)
}

/// Prints the errors and the tree of a text, and returns whether there are no errors.
pub fn print_text<W: Write>(alloc: Global, text: &str, out: &mut W) -> Result<bool, PrintError>
    ensures printed { IfOk result (λ good. IsPrinted text.now good (W.contents out.old) (W.contents out.new)) }
    ensures memory { result ≡ Err refused.Memory → out.new ≡ out.old }
{
    let Ok((tree, errors)) = parse(alloc, tokenize(alloc, text)) else {
        return Err(PrintError::Memory);
    };
    if let Err(error) = print(&tree, &errors, out) {
        return Err(PrintError::Write(error));
    }
    Ok(errors.is_empty())
}
