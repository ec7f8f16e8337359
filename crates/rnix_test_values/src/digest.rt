//! Digests of results: FNV-1a, with a byte 0 after each text. A second implementation, which reads character by character and has ordered maps, made the same
//! digests as those that the tests store.

use nix_values::{Data, JsonError, Value, data_of_json, json_of};
use std::alloc::{AllocError, Global};

/// The digest of nothing.
pub const START: u64 = 0xcbf2_9ce4_8422_2325;
// The factor of FNV-1a.
const PRIME: u64 = 0x100_0000_01b3;

/// Returns a digest to which a number is added.
pub fn with_number(digest: u64, number: u64) -> u64 {
    (digest ^ number).wrapping_mul(PRIME)
}

/// Returns a digest to which a text is added.
pub fn with_text(digest: u64, text: &str) -> u64 {
    let mut digest = digest;
    for byte in text.bytes() {
        digest = with_number(digest, u64::from(byte));
    }
    with_number(digest, 0)
}

/// Returns a digest to which a written text is added, or that there is none.
pub fn with_written(digest: u64, written: &Option<String>) -> u64 {
    match written {
        Some(text) => with_text(digest, text.as_str()),
        None => with_number(digest, 256),
    }
}

// Returns a digest to which a value is added.
fn with_value(digest: u64, value: &Value) -> u64 {
    match value {
        Value::Null => with_number(digest, 1),
        Value::Bool(is_true) => with_number(digest, 2 + u64::from(*is_true)),
        Value::Integer(number) => with_number(
            with_number(digest, 4 + u64::from(*number < 0)),
            number.unsigned_abs(),
        ),
        Value::Float(digits) => with_text(with_number(digest, 6), digits.as_str()),
        Value::Text(text) => with_text(with_number(digest, 7), text.as_str()),
        Value::List => with_number(digest, 8),
        Value::Set => with_number(digest, 9),
    }
}

/// Returns a digest to which data are added.
pub fn with_data(digest: u64, data: &Data) -> u64 {
    let mut digest = digest;
    for item in &data.items {
        digest = with_number(digest, item.depth as u64);
        digest = with_text(digest, item.name.as_str());
        digest = with_value(digest, &item.value);
    }
    digest
}

// Returns a digest to which an error is added: its reason, its offset, and that of the first of two equal names.
fn with_error(digest: u64, error: &JsonError) -> u64 {
    let digest = with_text(digest, error.reason.text());
    let digest = with_number(digest, error.offset as u64);
    match error.first {
        Some(first) => with_number(digest, first as u64),
        None => with_number(digest, u64::MAX),
    }
}

/// Returns a digest to which the data of a JSON text and these data as JSON are added, or the error if it has no data.
pub fn with_json(alloc: Global, digest: u64, text: &str) -> Result<u64, AllocError> {
    Ok(match data_of_json(alloc, text)? {
        Ok(data) => with_written(with_data(digest, &data), &json_of(alloc, &data)?),
        Err(error) => with_error(digest, &error),
    })
}
