//! Edits: renamed names, values that are set, entries that are added and removed.

use crate::digest::Digest;
use crate::numbers::{Numbers, mixed};
use crate::pins::pins;
use crate::results::{add_edit, add_node, add_parse, add_range};
use crate::source::uses;
use crate::words::Words;
use nix_scopes::resolve;
use rnix::ast::{AstNode, AttrpathValue};
use rnix::{Root, SyntaxKind, SyntaxNode, TextRange};
use rnix_edit::{Edited, insert_after, insert_inside, remove, replace};
use rnix_text::Edits;
use std::alloc::{AllocError, Global};
use std::io;

// Renames a binding and its uses, with the edits in the order of the text.
fn rename(alloc: Global, text: &str, number: usize, digest: &mut Digest) -> Result<(), AllocError> {
    let read = Root::parse(alloc, text)?;
    add_parse(&read, digest);
    let names = resolve(alloc, &read.syntax())?;
    let mut edits = Edits::new(alloc, text);
    if number < names.bindings().len() {
        for place in names.occurrences(alloc, number)? {
            add_range(place, digest);
            add_edit(edits.replace(place.start()..place.end(), "renamed"), digest);
        }
    }
    let made = edits.apply(alloc)?;
    digest.add_text(made.as_str());
    add_parse(&Root::parse(alloc, made.as_str())?, digest);
    Ok(())
}

// Returns the ranges of the identifiers of a tree.
fn identifiers(alloc: Global, root: &SyntaxNode<'_>) -> Result<Vec<TextRange>, AllocError> {
    let mut places = Vec::new(alloc);
    for node in root.descendants() {
        if node.kind() == SyntaxKind::NODE_IDENT {
            places.push(node.text_range())?;
        }
    }
    Ok(places)
}

// Replaces each identifier of a text, with the edits in random order.
fn replace_shuffled(
    alloc: Global,
    text: &str,
    seed: u64,
    digest: &mut Digest,
) -> Result<(), AllocError> {
    let read = Root::parse(alloc, text)?;
    add_parse(&read, digest);
    let mut places = identifiers(alloc, &read.syntax())?;
    let mut numbers = Numbers::new(seed);
    let mut edits = Edits::new(alloc, text);
    for _turn in 0..places.len() {
        let at = numbers.below(places.len());
        if at < places.len() {
            let place = places.swap_remove(at);
            add_range(place, digest);
            add_edit(edits.replace(place.start()..place.end(), "other"), digest);
        }
    }
    digest.add_text(edits.apply(alloc)?.as_str());
    Ok(())
}

// Returns the entry with a number.
fn entry_at<'t>(root: &SyntaxNode<'t>, number: usize) -> Option<AttrpathValue<'t>> {
    let mut left = number;
    for node in root.descendants() {
        if let Some(entry) = AttrpathValue::cast(node) {
            if left == 0 {
                return Some(entry);
            }
            left = left.saturating_sub(1);
        }
    }
    None
}

// Adds the result of an edit, and returns the new text, if there is one.
fn add_edited(edited: Edited, digest: &mut Digest) -> Option<String> {
    match edited {
        Edited::Done(text) => {
            digest.add_text(text.as_str());
            Some(text)
        }
        Edited::Refused(refusal) => {
            digest.add_number(match refusal {
                rnix_edit::Refusal::NotInText => 1,
                rnix_edit::Refusal::HasErrors => 2,
                rnix_edit::Refusal::ReadOtherwise => 3,
                rnix_edit::Refusal::NodeReadOtherwise => 4,
            });
            None
        }
    }
}

// Edits a text at the entry with a number: sets its value, adds an entry after it or in it, or removes it.
fn edited_at(
    alloc: Global,
    text: &str,
    number: usize,
    way: usize,
    digest: &mut Digest,
) -> Result<Option<Edited>, AllocError> {
    let read = Root::parse(alloc, text)?;
    add_parse(&read, digest);
    let root = read.syntax();
    let Some(entry) = entry_at(&root, number) else {
        return Ok(None);
    };
    let Some(value) = entry.value() else {
        return Ok(None);
    };
    let (own, value) = (entry.syntax(), value.syntax());
    add_node(own, digest);
    add_node(value, digest);
    let kind = SyntaxKind::NODE_ATTRPATH_VALUE;
    let edited = match way {
        0 => insert_after(alloc, text, &root, own, kind, "added = [ 1 2 ];")?,
        1 => remove(alloc, text, &root, own)?,
        2 if value.kind() == SyntaxKind::NODE_ATTR_SET => {
            insert_inside(alloc, text, &root, value, kind, "inner = true;")?
        }
        _ => replace(
            alloc,
            text,
            &root,
            value,
            SyntaxKind::NODE_STRING,
            "\"new\"",
        )?,
    };
    Ok(Some(edited))
}

// Edits a text up to eight times, each time the result of the edit before, until an edit is refused.
fn edit_again(
    alloc: Global,
    text: String,
    seed: u64,
    digest: &mut Digest,
) -> Result<(), AllocError> {
    let mut numbers = Numbers::new(seed);
    let mut text = text;
    for _turn in 0..8 {
        let (number, way) = (numbers.below(400), numbers.below(6));
        let Some(edited) = edited_at(alloc, text.as_str(), number, way, digest)? else {
            return Ok(());
        };
        let Some(made) = add_edited(edited, digest) else {
            return Ok(());
        };
        text = made;
    }
    Ok(())
}

/// Edits `size` texts in each way.
pub fn edit(
    alloc: Global,
    words: &Words,
    seed: u64,
    size: usize,
    digest: &mut Digest,
) -> io::Result<()> {
    let seed = mixed(seed);
    for number in 0..size {
        let own = mixed(seed.wrapping_add(number as u64));
        let many = 100 + (number % 5) * 300;
        let named = uses(alloc, words, own, many)?;
        rename(alloc, named.as_str(), 0, digest)?;
        let others = uses(alloc, words, mixed(own), many)?;
        replace_shuffled(alloc, others.as_str(), own, digest)?;
        edit_again(alloc, pins(alloc, words, own, many)?, own, digest)?;
    }
    Ok(())
}
