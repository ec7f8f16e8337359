//! The messages of errors.

ghost use Rattle.std.specs.Prelude.{◌≡◌, ◌⊎◌, map, IfOk, string_bytes};
ghost use Rattle.rnix_grammar.specs.Fault.{fault_of, fault_text};
ghost use Rattle.rnix_c.specs.Answers.{no_memory, IsWritten, Answers};
ghost use Rattle.rnix_c.specs.Messages.{WritesMessage, messages_of};

use crate::answers::{self, NO_MEMORY, NONE_SUCH, parsed};
use rnix::ParseError;
use std::alloc::Global;
use std::fmt::{self, Write};

// Writes an error's message, and returns its length in bytes.
fn write_message(alloc: Global, error: &ParseError, room: &mut [u8]) -> i64
    ensures { ((result ≡ no_memory) × (room.new ≡ room.old)) ⊎ IsWritten (fault_text (fault_of error.now)) result room.old room.new }
{
    match error.to_string(alloc) {
        Ok(text) => answers::written(&text, room),
        Err(_) => NO_MEMORY,
    }
}

// Writes the message of the error with this number, and returns its length in bytes.
fn write_message_of(alloc: Global, errors: &[ParseError], number: usize, room: &mut [u8]) -> i64
    ensures { ((result ≡ no_memory) × (room.new ≡ room.old)) ⊎ WritesMessage (map fault_of errors.now) number result room.old room.new }
{
    match errors.get(number) {
        Some(error) => write_message(alloc, error, room),
        None => NONE_SUCH,
    }
}

// Returns the messages of the errors, each followed by a line feed.
fn messages_of(alloc: Global, errors: &[ParseError]) -> Result<String, fmt::Error>
    ensures { IfOk result (λ messages. string_bytes messages ≡ messages_of (map fault_of errors.now)) }
{
    let mut messages = String::new(alloc);
    for error in errors {
        write!(messages, "{error}\n")?;
    }
    Ok(messages)
}

/// Writes the message of one error of a text, and returns its length in bytes.
#[unsafe(no_mangle)]
pub extern "C" fn rnix_error_text(alloc: Global, text: &[u8], number: usize, room: &mut [u8]) -> i64
    ensures { Answers text.now result (room.new ≡ room.old) (λ _ faults. WritesMessage faults number result room.old room.new) }
{
    match parsed(alloc, text) {
        Ok((_green, errors)) => write_message_of(alloc, &errors, number, room),
        Err(answer) => answer,
    }
}

/// Writes the messages of all errors of a text, each on a line, and returns their length in bytes.
#[unsafe(no_mangle)]
pub extern "C" fn rnix_error_texts(alloc: Global, text: &[u8], room: &mut [u8]) -> i64
    ensures { Answers text.now result (room.new ≡ room.old) (λ _ faults. IsWritten (messages_of faults) result room.old room.new) }
{
    let (_green, errors) = match parsed(alloc, text) {
        Ok(read) => read,
        Err(answer) => return answer,
    };
    match messages_of(alloc, &errors) {
        Ok(messages) => answers::written(&messages, room),
        Err(_) => NO_MEMORY,
    }
}
