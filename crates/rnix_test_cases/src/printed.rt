//! The lists of cases, and the results that are compared with the stored ones.

use crate::list::Case;
use rnix::ast::{AstNode, Expr, InterpolPart};
use rnix::{Root, tokenize};
use rnix_print::print_text;
use std::alloc::Global;
use std::io;
use std::io::Write;

/// The lists.
#[derive(Clone, Copy)]
pub enum List {
    Tokens,
    Trees,
    Strings,
    /// Trees of texts on which rnix and Nix 2.8 differ or nearly do. The first line of a stored result says what Nix does.
    Nix,
}

impl List {
    /// All of them, in the order in which they are replayed.
    pub const ALL: [List; 4] = [List::Tokens, List::Trees, List::Strings, List::Nix];

    /// The file that holds it.
    pub fn name(self) -> &'static str {
        match self {
            List::Tokens => "tokens",
            List::Trees => "trees",
            List::Strings => "strings",
            List::Nix => "nix",
        }
    }

    /// The stored result of a case, without the line about Nix.
    pub fn wanted(self, case: Case<'_>) -> &str {
        match (self, case.wanted.split_once('\n')) {
            (List::Nix, Some((_nix, tree))) => tree,
            _ => case.wanted,
        }
    }
}

// One line for each token: its kind, and the length of its text in bytes.
fn print_tokens(alloc: Global, text: &str, out: &mut Vec<u8>) -> io::Result<()> {
    let mut tokens = tokenize(alloc, text);
    for _byte in 0..text.len() {
        if let Some(token) = tokens.next_token() {
            let (kind, text) = token?;
            let (name, len) = (kind.name(), text.len());
            write!(out, "{name} {len}\n")?;
        }
    }
    Ok(())
}

// What the program prints.
fn print_tree(alloc: Global, text: &str, out: &mut Vec<u8>) -> io::Result<()> {
    let _is_good = print_text(alloc, text, out)?;
    Ok(())
}

// A line with the variant of a part and the length of its text in bytes, and then the text.
fn print_part(part: &InterpolPart<'_, String>, out: &mut Vec<u8>) -> io::Result<()> {
    let (name, text) = match part {
        InterpolPart::Literal(text) => ("literal", text.as_str()),
        InterpolPart::Interpolation(node) => ("interpolation", node.syntax().text()),
    };
    let len = text.len();
    write!(out, "{name} {len}\n{text}\n")
}

// The normalized parts of a text that is a string.
fn print_string(alloc: Global, text: &str, out: &mut Vec<u8>) -> io::Result<()> {
    let read = Root::parse(alloc, text)?;
    let Some(Expr::Str(string)) = read.tree().expr() else {
        return write!(out, "no string\n");
    };
    for part in &string.normalized_parts(alloc)? {
        print_part(part, out)?;
    }
    Ok(())
}

/// The result for a text of a list.
pub fn printed(alloc: Global, list: List, text: &str) -> io::Result<Vec<u8>> {
    let mut out = Vec::new(alloc);
    match list {
        List::Tokens => print_tokens(alloc, text, &mut out)?,
        List::Trees | List::Nix => print_tree(alloc, text, &mut out)?,
        List::Strings => print_string(alloc, text, &mut out)?,
    }
    Ok(out)
}
