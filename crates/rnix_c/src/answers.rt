//! The results of calls: the number of items, or the reason why a call is refused.

ghost use Rattle.std.specs.Prelude.{◌≡◌, ◌<◌, ◌^◌, length, map, IfOk, IfErr, IsUtf8};
ghost use Rattle.rnix_kinds.specs.Lexical.Tokens.{tokens_of};
ghost use Rattle.rnix_grammar.specs.Fault.{fault_of};
ghost use Rattle.rnix_grammar.specs.Parsed.{IsParsed};
ghost use Rattle.rnix_c.specs.Answers.{filled, IsRefused, IsWritten};
ghost use Rattle.rnix_c.specs.Elements.{AreFew};

use rnix::laws::size;
use rnix::{GreenNode, Parse, ParseError, Root, tokenize};
use rnix_parser::parse;
use std::alloc::Global;

/// The text is not UTF-8.
pub const NOT_UTF8: i64 = -1;

/// An allocation failed.
pub const NO_MEMORY: i64 = -2;

/// There is no such kind, error, diagnostic, string or unit of columns.
pub const NONE_SUCH: i64 = -3;

/// The text is too long: 2^32 bytes or more.
pub const TOO_LONG: i64 = -4;

/// The text has errors.
pub const HAS_ERRORS: i64 = -5;

/// The new text would differ in more than its layout, or change if formatted again.
pub const DIFFERENT: i64 = -6;

/// An absent offset or number.
pub const NO_NUMBER: u64 = u64::MAX;

/// An absent kind.
pub const NO_KIND: u32 = u32::MAX;

/// Returns the text, or the reason why it cannot be parsed.
pub fn checked<'t>(text: &'t [u8]) -> Result<&'t str, i64>
    ensures utf8 { IfOk result (λ _. IsUtf8 text.now) }
    ensures same { IfOk result (λ checked. checked.now ≡ text.now) }
    ensures short { IfOk result (λ _. length text.now < 2 ^ 32) }
    ensures refused { IfErr result (λ answer. IsRefused text.now answer) }
{
    let Ok(checked) = str::from_utf8(text) else {
        return Err(NOT_UTF8);
    };
    if checked.len() > u32::MAX as usize {
        return Err(TOO_LONG);
    }
    Ok(checked)
}

/// Parses a text. Returns its tree and its errors, or the reason for refusing it.
#[tactic(auto, using(crate::proofs::FewElements::few_elements))]
pub fn parsed(alloc: Global, text: &[u8]) -> Result<(GreenNode, Vec<ParseError>), i64>
    ensures utf8 { IfOk result (λ _. IsUtf8 text.now) }
    ensures read { IfOk result (λ read. IsParsed (tokens_of text.now) read.0 (map fault_of read.1.items)) }
    ensures few { IfOk result (λ read. AreFew text.now read.0) }
    ensures refused { IfErr result (λ answer. IsRefused text.now answer) }
{
    let text = checked(text)?;
    size(text);
    match parse(alloc, tokenize(alloc, text)) {
        Ok(read) => Ok(read),
        Err(_) => Err(NO_MEMORY),
    }
}

/// Parses a text, like `parsed`.
pub fn parse_of(alloc: Global, text: &[u8]) -> Result<Parse, i64>
    ensures utf8 { IfOk result (λ _. IsUtf8 text.now) }
    ensures read { IfOk result (λ read. IsParsed (tokens_of text.now) read.tree read.faults) }
    ensures refused { IfErr result (λ answer. IsRefused text.now answer) }
{
    let text = checked(text)?;
    match Root::parse(alloc, text) {
        Ok(read) => Ok(read),
        Err(_) => Err(NO_MEMORY),
    }
}

/// Writes the first items, as many as fit into the array.
pub fn fill<T: Copy>(items: &[T], room: &mut [T])
    ensures { room.new ≡ filled items.now room.old }
{
    if items.len() <= room.len() {
        room[..items.len()].copy_from_slice(items);
    } else {
        room.copy_from_slice(&items[..room.len()]);
    }
}

/// Writes the first bytes of the text, as many as fit into the array, and returns the length of the text.
pub fn written(text: &str, room: &mut [u8]) -> i64
    ensures { IsWritten text.now result room.old room.new }
{
    fill(text.as_bytes(), room);
    text.len() as i64
}
