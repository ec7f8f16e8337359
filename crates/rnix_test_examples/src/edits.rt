//! An edit of a text by a node, as docs/uses.md shows it.

use rnix::Root;
use rnix::ast::{AstNode, Expr, HasEntry};
use rnix_edit::{Edited, Refusal, remove};
use std::alloc::{AllocError, Global};
use std::test::Fail;

// Returns the text of a set without the attribute of a path, or None if the text is not a set or has no such attribute.
fn without_attribute(alloc: Global, text: &str, path: &str) -> Result<Option<Edited>, AllocError> {
    let read = Root::parse(alloc, text)?;
    let Some(Expr::AttrSet(set)) = read.tree().expr() else {
        return Ok(None);
    };
    for entry in set.attrpath_values() {
        if let Some(own) = entry.attrpath() {
            if own.syntax().text() == path {
                let edited = remove(alloc, text, &read.syntax(), entry.syntax())?;
                return Ok(Some(edited));
            }
        }
    }
    Ok(None)
}

#[test]
fn an_attribute_is_removed(rt: HostRuntime) -> Result<(), Fail> {
    let text = "{\n  # kept\n  a = 1; # goes\n  b.c = 2;\n}\n";
    match without_attribute(rt.alloc(), text, "a")? {
        Some(Edited::Done(made)) => {
            assert_eq!(rt; made.as_str(), "{\n  # kept\n  b.c = 2;\n}\n");
        }
        _ => assert!(rt; false),
    }
    assert!(rt; without_attribute(rt.alloc(), text, "b")?.is_none());
    match without_attribute(rt.alloc(), "{ a = 1; b = ; }", "a")? {
        Some(Edited::Refused(refusal)) => assert!(rt; refusal == Refusal::HasErrors),
        _ => assert!(rt; false),
    }
    Ok(())
}
