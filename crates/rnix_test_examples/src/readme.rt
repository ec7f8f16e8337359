//! The example of README.md.

use rnix::{Root, WalkEvent};
use std::test::Fail;

#[test]
fn the_kinds_of_a_text_are_printed(rt: HostRuntime) -> Result<(), Fail> {
    let alloc = rt.alloc();
    let read = Root::parse(alloc, "f (1 + x)")?;
    for event in read.syntax().preorder_with_tokens() {
        if let WalkEvent::Enter(element) = event {
            println!(rt; "{}", element.kind().name())?;
        }
    }
    assert!(rt; read.errors().is_empty());
    Ok(())
}

#[test]
fn the_first_kinds_are_those_on_the_page(rt: HostRuntime) -> Result<(), Fail> {
    let read = Root::parse(rt.alloc(), "f (1 + x)")?;
    let mut names = String::new(rt.alloc());
    for event in read.syntax().preorder_with_tokens() {
        if let WalkEvent::Enter(element) = event {
            names.push_str(element.kind().name())?;
            names.push(' ')?;
        }
    }
    let wanted = "NODE_ROOT NODE_APPLY NODE_IDENT TOKEN_IDENT TOKEN_WHITESPACE NODE_PAREN ";
    assert!(rt; names.starts_with(wanted));
    Ok(())
}
