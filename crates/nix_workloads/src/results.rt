//! How results of the libraries enter a digest.

use crate::digest::Digest;
use rnix::{Parse, ParseError, SyntaxElement, SyntaxKind, SyntaxNode, TextRange};
use rnix_text::EditError;

/// Adds a range.
pub fn add_range(range: TextRange, digest: &mut Digest) {
    digest.add_number(range.start());
    digest.add_number(range.end());
}

/// Adds a kind.
pub fn add_kind(kind: SyntaxKind, digest: &mut Digest) {
    digest.add_number(kind as usize);
}

/// Adds the kind and the range of a node.
pub fn add_node(node: &SyntaxNode<'_>, digest: &mut Digest) {
    add_kind(node.kind(), digest);
    add_range(node.text_range(), digest);
}

/// Adds the kind and the range of a node or a token.
pub fn add_element(element: &SyntaxElement<'_>, digest: &mut Digest) {
    add_kind(element.kind(), digest);
    add_range(element.text_range(), digest);
}

// Adds kinds and their number.
fn add_kinds(kinds: &[SyntaxKind], digest: &mut Digest) {
    for kind in kinds {
        add_kind(*kind, digest);
    }
    digest.add_number(kinds.len());
}

// Adds an error.
fn add_error(error: &ParseError, digest: &mut Digest) {
    match error {
        ParseError::Unexpected(range) => add_range(*range, digest),
        ParseError::UnexpectedExtra(range) => {
            digest.add_number(1);
            add_range(*range, digest);
        }
        ParseError::UnexpectedWanted(kind, range, wanted) => {
            add_kind(*kind, digest);
            add_range(*range, digest);
            add_kinds(wanted, digest);
        }
        ParseError::UnexpectedDoubleBind(range) => {
            digest.add_number(3);
            add_range(*range, digest);
        }
        ParseError::UnexpectedEOF => digest.add_number(4),
        ParseError::UnexpectedEOFWanted(wanted) => add_kinds(wanted, digest),
        ParseError::DuplicatedArgs(range, name) => {
            add_range(*range, digest);
            digest.add_text(name.as_str());
        }
        ParseError::RecursionLimitExceeded => digest.add_number(7),
    }
}

// Adds the errors of a text.
fn add_errors(errors: &[ParseError], digest: &mut Digest) {
    for error in errors {
        add_error(error, digest);
    }
    digest.add_number(errors.len());
}

/// Adds a parse: its errors, the number of elements of its tree, and the elements right below the root.
pub fn add_parse(read: &Parse, digest: &mut Digest) {
    let root = read.syntax();
    add_errors(read.errors(), digest);
    add_node(&root, digest);
    digest.add_number(root.inside_count());
    for element in root.children_with_tokens() {
        add_element(&element, digest);
    }
}

/// Adds whether an edit was accepted, or else why not.
pub fn add_edit(edit: Result<(), EditError>, digest: &mut Digest) {
    digest.add_number(match edit {
        Ok(()) => 1,
        Err(EditError::OutOfText) => 2,
        Err(EditError::InsideCharacter) => 3,
        Err(EditError::Overlap) => 4,
        Err(EditError::Memory) => 5,
    });
}
