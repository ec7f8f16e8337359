//! What a program keeps of a text: its tree, and pointers into it.

use rnix::ast::{AstNode, AstPtr, Lambda, pointee};
use rnix::{Parse, Root, SyntaxKind, SyntaxNode, SyntaxNodePtr};
use std::alloc::{AllocError, Global};
use std::collections::HashSet;
use std::test::Fail;

// The parse of a text, and pointers to its names.
#[derive(Drop)]
struct Document {
    read: Parse,
    names: Vec<SyntaxNodePtr>,
}

// Reads a text and points to its names.
fn read_document(alloc: Global, text: &str) -> Result<Document, AllocError> {
    let read = Root::parse(alloc, text)?;
    let mut names = Vec::new(alloc);
    for node in read.syntax().descendants() {
        if node.kind() == SyntaxKind::NODE_IDENT {
            names.push(SyntaxNodePtr::new(&node))?;
        }
    }
    Ok(Document { read, names })
}

// The text of the name with this index, if there is one.
fn name(document: &Document, number: usize) -> Option<&str> {
    let pointer = document.names.get(number)?;
    let node = pointer.try_to_node(&document.read.syntax())?;
    Some(node.text())
}

#[test]
fn a_struct_keeps_a_tree_and_pointers_into_it(rt: HostRuntime) -> Result<(), Fail> {
    let document = read_document(rt.alloc(), "let a = b; in c")?;
    assert!(rt; name(&document, 0) == Some("a"));
    assert!(rt; name(&document, 1) == Some("b"));
    assert!(rt; name(&document, 2) == Some("c"));
    assert!(rt; name(&document, 3).is_none());
    Ok(())
}

// Whether a node of the tree of a text has the pointer of the last name of the document.
fn has_last_name(alloc: Global, document: &Document, text: &str) -> Result<bool, AllocError> {
    let read = Root::parse(alloc, text)?;
    Ok(match document.names.last() {
        Some(pointer) => pointer.try_to_node(&read.syntax()).is_some(),
        None => false,
    })
}

#[test]
fn pointers_find_their_nodes_in_the_tree_of_an_equal_text(rt: HostRuntime) -> Result<(), Fail> {
    let kept = read_document(rt.alloc(), "let a = b; in c")?;
    assert!(rt; has_last_name(rt.alloc(), &kept, "let a = b; in c")?);
    assert!(rt; !has_last_name(rt.alloc(), &kept, "let")?);
    Ok(())
}

// Pointers to the functions of a tree.
fn functions(
    alloc: Global,
    root: &SyntaxNode<'_>,
) -> Result<HashSet<AstPtr<pointee::Lambda>>, AllocError> {
    let mut found = HashSet::new(alloc);
    for node in root.descendants() {
        if let Some(lambda) = Lambda::cast(node) {
            found.insert(AstPtr::new(&lambda))?;
        }
    }
    Ok(found)
}

// How many of the pointers find functions in a tree to which new pointers are equal to them.
fn count_found(functions: &HashSet<AstPtr<pointee::Lambda>>, root: &SyntaxNode<'_>) -> usize {
    let mut count: usize = 0;
    for pointer in functions {
        if let Some(lambda) = pointer.try_to_node(root) {
            let is_same = AstPtr::new(&lambda) == *pointer && lambda.body().is_some();
            count = count.saturating_add(usize::from(is_same));
        }
    }
    count
}

// How many functions a text has, and how many of the pointers to them find functions in another text.
fn counts(alloc: Global, text: &str, other: &str) -> Result<(usize, usize), AllocError> {
    let (read, other) = (Root::parse(alloc, text)?, Root::parse(alloc, other)?);
    let kept = functions(alloc, &read.syntax())?;
    Ok((kept.len(), count_found(&kept, &other.syntax())))
}

#[test]
fn pointers_keep_the_type_of_their_nodes(rt: HostRuntime) -> Result<(), Fail> {
    for (other, wanted) in [("a: b: a", (2, 2)), ("{ }: b: a", (2, 0))] {
        assert!(rt;
            counts(rt.alloc(), "a: b: a", other)? == wanted,
            "of {other}"
        );
    }
    Ok(())
}

// Whether a pointer to a function casts to one to an expression, and to one to a `let`.
fn casts(pointer: AstPtr<pointee::Lambda>) -> (bool, bool) {
    let expression = pointer.cast::<pointee::Expr>();
    let binding = pointer.cast::<pointee::LetIn>();
    (expression.is_some(), binding.is_some())
}

// What `casts` returns for a pointer to the first function of a text.
fn first_casts(read: &Parse) -> Option<(bool, bool)> {
    for node in read.syntax().descendants() {
        if let Some(lambda) = Lambda::cast(node) {
            return Some(casts(AstPtr::new(&lambda)));
        }
    }
    None
}

#[test]
fn pointers_cast_as_their_nodes_do(rt: HostRuntime) -> Result<(), Fail> {
    let read = Root::parse(rt.alloc(), "a: b: a")?;
    assert!(rt; first_casts(&read) == Some((true, false)));
    Ok(())
}
