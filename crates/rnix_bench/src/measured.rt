//! The parts that are timed.

use crate::walking::{count_events, count_range_bytes, follow_parents, look_up};
use rnix_kinds::tokenize;
use rnix_parser::parse;
use rnix_tree::{SyntaxNode, dump};
use std::alloc::{AllocError, Global};
use std::io;
use std::time::Instant;

/// A part of the library that is timed.
#[derive(Clone, Copy)]
pub enum Part {
    /// Cuts the text into tokens.
    Tokens,
    /// Makes the tree and the errors of the text.
    Parse,
    /// Goes over all elements in preorder.
    Walk,
    /// Asks each element for its range.
    Ranges,
    /// Follows the parents of tokens.
    Parents,
    /// Looks up the tokens at offsets.
    Offsets,
    /// Prints the tree.
    Print,
}

impl Part {
    /// The part with a name.
    pub fn named(name: &str) -> Option<Part> {
        match name {
            "tokens" => Some(Part::Tokens),
            "parse" => Some(Part::Parse),
            "walk" => Some(Part::Walk),
            "ranges" => Some(Part::Ranges),
            "parents" => Some(Part::Parents),
            "offsets" => Some(Part::Offsets),
            "print" => Some(Part::Print),
            _ => None,
        }
    }
}

// How many tokens the text has, which are no more than its bytes.
fn count_tokens(alloc: Global, text: &str) -> Result<usize, AllocError> {
    let mut tokens = tokenize(alloc, text);
    for count in 0..text.len() {
        let Some(token) = tokens.next_token() else {
            return Ok(count);
        };
        token?;
    }
    Ok(text.len())
}

// How many errors the text has.
fn count_errors(alloc: Global, text: &str) -> Result<usize, AllocError> {
    let (_tree, errors) = parse(alloc, tokenize(alloc, text))?;
    Ok(errors.len())
}

// How many bytes the printed tree has.
fn count_printed(alloc: Global, root: &SyntaxNode<'_>) -> io::Result<usize> {
    let mut out: Vec<u8> = Vec::new(alloc);
    dump(root, &mut out)?;
    Ok(out.len())
}

// What one turn of a part counts in a text. The parts that walk or print a tree use the one that was made before.
fn turn(alloc: Global, part: Part, text: &str, root: &SyntaxNode<'_>) -> io::Result<usize> {
    match part {
        Part::Tokens => Ok(count_tokens(alloc, text)?),
        Part::Parse => Ok(count_errors(alloc, text)?),
        Part::Walk => Ok(count_events(root)),
        Part::Ranges => Ok(count_range_bytes(root)),
        Part::Parents => Ok(follow_parents(root)),
        Part::Offsets => Ok(look_up(root)),
        Part::Print => count_printed(alloc, root),
    }
}

// The text that is parsed before the turns: an empty one if tokenizing or parsing is timed.
fn read_before(part: Part, text: &str) -> &str {
    match part {
        Part::Tokens | Part::Parse => "",
        _ => text,
    }
}

/// Prints a line: what a turn counted, and the fewest microseconds that one took.
pub fn report(rt: &HostRuntime, part: Part, text: &str, turns: u64) -> io::Result<()> {
    let tokens = tokenize(rt.alloc(), read_before(part, text));
    let (tree, _errors) = parse(rt.alloc(), tokens)?;
    let root = SyntaxNode::new_root(&tree);
    let (mut least, mut count) = (u128::MAX, 0);
    for _turn in 0..turns {
        let start = Instant::now(rt)?;
        count = turn(rt.alloc(), part, text, &root)?;
        least = least.min(start.elapsed(rt)?.as_micros());
    }
    println!(rt; "{count} in {least} us")
}
