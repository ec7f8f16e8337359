//! Conversions: JSON to Nix and back, and Nix to JSON.

use crate::digest::Digest;
use crate::numbers::mixed;
use crate::pins::{flat, lock, numbers, paths, pins};
use crate::results::{add_kind, add_range};
use crate::words::Words;
use nix_data::{NoData, Reason, data_of, nix_of};
use nix_values::{Data, JsonError, data_of_json, json_of};
use std::alloc::{AllocError, Global};
use std::io;

/// Adds why a text is not data.
pub fn add_no_data(found: &NoData, digest: &mut Digest) {
    digest.add_text(found.reason.text());
    if let Reason::Evaluated(kind) = found.reason {
        add_kind(kind, digest);
    }
    add_range(found.range, digest);
    if let Some(first) = found.first {
        add_range(first, digest);
    }
}

// Adds why a text is not JSON.
fn add_json_error(error: &JsonError, digest: &mut Digest) {
    digest.add_text(error.reason.text());
    digest.add_number(error.offset);
    digest.add_number(error.first.unwrap_or(usize::MAX));
}

// Writes data as JSON, and adds the text and whether it is read as the same data.
fn add_json(alloc: Global, data: &Data, digest: &mut Digest) -> Result<(), AllocError> {
    let Some(json) = json_of(alloc, data)? else {
        digest.add_number(0);
        return Ok(());
    };
    digest.add_text(json.as_str());
    match data_of_json(alloc, json.as_str())? {
        Ok(again) => digest.add_number(usize::from(again.is_same(data))),
        Err(error) => add_json_error(&error, digest),
    }
    Ok(())
}

// Converts a Nix text to JSON, and the JSON to data again.
fn from_nix(alloc: Global, text: &str, digest: &mut Digest) -> Result<(), AllocError> {
    match data_of(alloc, text)? {
        Ok(data) => add_json(alloc, &data, digest),
        Err(found) => {
            add_no_data(&found, digest);
            Ok(())
        }
    }
}

// Converts a JSON text to Nix, and the Nix text to JSON.
fn from_json(alloc: Global, text: &str, digest: &mut Digest) -> Result<(), AllocError> {
    let data = match data_of_json(alloc, text)? {
        Ok(data) => data,
        Err(error) => {
            add_json_error(&error, digest);
            return Ok(());
        }
    };
    let Some(nix) = nix_of(alloc, &data)? else {
        digest.add_number(0);
        return Ok(());
    };
    digest.add_text(nix.as_str());
    from_nix(alloc, nix.as_str(), digest)
}

/// Converts `size` texts of each kind.
pub fn convert(
    alloc: Global,
    words: &Words,
    seed: u64,
    size: usize,
    digest: &mut Digest,
) -> io::Result<()> {
    let seed = mixed(seed);
    for number in 0..size {
        let own = mixed(seed.wrapping_add(number as u64));
        let many = 50 + (number % 5) * 150;
        let more = many.saturating_mul(4);
        from_json(alloc, lock(alloc, words, own, many)?.as_str(), digest)?;
        from_json(alloc, flat(alloc, words, own, more)?.as_str(), digest)?;
        from_json(alloc, numbers(alloc, words, own, more)?.as_str(), digest)?;
        from_nix(alloc, pins(alloc, words, own, many)?.as_str(), digest)?;
        from_nix(alloc, paths(alloc, words, own, many)?.as_str(), digest)?;
    }
    Ok(())
}
