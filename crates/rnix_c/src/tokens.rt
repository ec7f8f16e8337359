//! The tokens of a text.

ghost use Rattle.rnix_c.specs.TokenCalls.{AnswersTokens, WritesTokens};

use crate::answers::{NO_MEMORY, NOT_UTF8};
use rnix::tokenize;
use std::alloc::Global;

/// A token. Ranges are half-open, in bytes.
#[repr(C)]
#[derive(Clone, Copy)]
pub struct RnixToken {
    pub start: u64,
    pub end: u64,
    pub kind: u32,
}

// Writes the first tokens of the text, as many as fit into the array, and returns the number of all tokens.
fn written(alloc: Global, text: &str, room: &mut [RnixToken]) -> i64
    ensures { WritesTokens text.now result room.old room.new }
{
    let mut tokens = tokenize(alloc, text);
    let (mut count, mut start): (usize, usize) = (0, 0);
    while let Some(next) = tokens.next_token() {
        let Ok((kind, token)) = next else {
            return NO_MEMORY;
        };
        let end = start + token.len();
        if count < room.len() {
            room[count] = RnixToken {
                start: start as u64,
                end: end as u64,
                kind: kind as u32,
            };
        }
        count += 1;
        start = end;
    }
    count as i64
}

/// Writes the tokens of a text, and returns their number.
#[unsafe(no_mangle)]
pub extern "C" fn rnix_tokens(alloc: Global, text: &[u8], room: &mut [RnixToken]) -> i64
    ensures { AnswersTokens text.now result room.old room.new }
{
    match str::from_utf8(text) {
        Ok(text) => written(alloc, text, room),
        Err(_) => NOT_UTF8,
    }
}
