//! A check of a collection: whether each file is formatted, its mistakes, and what its names refer to.

use crate::digest::Digest;
use crate::numbers::mixed;
use crate::packages::{Files, generated, listing};
use crate::results::{add_node, add_parse, add_range};
use crate::words::Words;
use nix_diagnostics::{Note, diagnostics};
use nix_formatting::{Formatting, formatted};
use nix_scopes::{Binding, Reference, resolve};
use rnix::{Parse, Root};
use std::alloc::{AllocError, Global};
use std::io;

// Adds the notes on a mistake.
fn add_notes(notes: &[Note], digest: &mut Digest) {
    for note in notes {
        if let Some(range) = note.range {
            add_range(range, digest);
        }
        digest.add_text(note.message);
    }
    digest.add_number(notes.len());
}

/// Adds the mistakes of a text that was read.
pub fn add_mistakes(alloc: Global, read: &Parse, digest: &mut Digest) -> Result<(), AllocError> {
    let found = diagnostics(alloc, read)?;
    for diagnostic in &found {
        add_range(diagnostic.range, digest);
        digest.add_text(diagnostic.message.as_str());
        digest.add_number(diagnostic.first_error);
        digest.add_number(diagnostic.end_error);
        add_notes(&diagnostic.notes, digest);
    }
    digest.add_number(found.len());
    Ok(())
}

// Adds the names that a text binds.
fn add_bindings(bindings: &[Binding<'_>], digest: &mut Digest) {
    for binding in bindings {
        digest.add_text(binding.text.as_str());
        add_node(&binding.node, digest);
        add_node(&binding.scope, digest);
        digest.add_number(binding.first);
    }
    digest.add_number(bindings.len());
}

// Adds the names that a text uses.
fn add_references(references: &[Reference<'_>], digest: &mut Digest) {
    for reference in references {
        digest.add_text(reference.text.as_str());
        add_node(&reference.node, digest);
        digest.add_number(reference.binding.unwrap_or(usize::MAX));
        digest.add_number(usize::from(reference.is_inherited));
        digest.add_number(usize::from(reference.is_open));
    }
    digest.add_number(references.len());
}

/// Adds what the names of a text refer to.
pub fn add_names(alloc: Global, read: &Parse, digest: &mut Digest) -> Result<(), AllocError> {
    let names = resolve(alloc, &read.syntax())?;
    add_bindings(names.bindings(), digest);
    add_references(names.references(), digest);
    Ok(())
}

/// Adds a formatted text, and whether it is the same as the old one.
pub fn add_formatted(alloc: Global, text: &str, digest: &mut Digest) -> Result<(), AllocError> {
    match formatted(alloc, text)? {
        Formatting::Formatted(made) | Formatting::Retokened(made) => {
            digest.add_text(made.as_str());
            digest.add_number(usize::from(made.as_str() == text));
        }
        Formatting::HasErrors => digest.add_number(2),
        Formatting::Refused => digest.add_number(3),
    }
    Ok(())
}

/// Adds all that is checked of a text.
pub fn check_text(alloc: Global, text: &str, digest: &mut Digest) -> Result<(), AllocError> {
    add_formatted(alloc, text, digest)?;
    let read = Root::parse(alloc, text)?;
    add_parse(&read, digest);
    add_mistakes(alloc, &read, digest)?;
    add_names(alloc, &read, digest)
}

/// Checks `size` files, a list of all packages, and a generated set.
pub fn check(
    alloc: Global,
    words: &Words,
    seed: u64,
    size: usize,
    digest: &mut Digest,
) -> io::Result<()> {
    let seed = mixed(seed);
    let files = Files::new(alloc)?;
    for number in 0..size {
        let text = files.file(alloc, words, seed.wrapping_add(number as u64))?;
        check_text(alloc, text.as_str(), digest)?;
    }
    let listed = listing(alloc, words, mixed(seed ^ 1), size.saturating_mul(4))?;
    check_text(alloc, listed.as_str(), digest)?;
    let made = generated(alloc, words, mixed(seed ^ 2), size)?;
    check_text(alloc, made.as_str(), digest)?;
    Ok(())
}
