//! Trees in which another node replaces a node.

use crate::parsed::Parsed;
use rnix_green::GreenNode;
use std::alloc::{AllocError, Global};
use std::test::Fail;

// The tree of `text` with the only node of `part` in place of the node with a number; `None` if there are no such nodes.
fn spliced(
    alloc: Global,
    text: &str,
    number: usize,
    part: &str,
) -> Result<Option<GreenNode>, AllocError> {
    let (read, part) = (Parsed::new(alloc, text)?, Parsed::new(alloc, part)?);
    let (old, new) = (read.green(), part.green());
    if number < old.element_count() && old.element(number).is_node && new.has_only_child() {
        return Ok(Some(old.with_node(number, new)?));
    }
    Ok(None)
}

// Whether the spliced tree is that of the text `wanted`.
fn is_spliced(
    alloc: Global,
    text: &str,
    number: usize,
    part: &str,
    wanted: &str,
) -> Result<Option<bool>, AllocError> {
    let wanted = Parsed::new(alloc, wanted)?;
    match spliced(alloc, text, number, part)? {
        Some(tree) => Ok(Some(tree.is_same(wanted.green()))),
        None => Ok(None),
    }
}

#[test]
fn a_node_in_place_of_another_makes_the_tree_of_the_new_text(rt: HostRuntime) -> Result<(), Fail> {
    let cases = [
        ("(a)", 1, "(b c)", "(b c)"),
        ("[ 1 (a) x ]", 7, "(b c)", "[ 1 (b c) x ]"),
        ("[ 1 (a b) x ]", 7, "(2)", "[ 1 (2) x ]"),
        (
            "[ [ ] { a = 1; } [ é ] ]",
            4,
            "[ 1 [ 2 ] ]",
            "[ [ 1 [ 2 ] ] { a = 1; } [ é ] ]",
        ),
        ("f { a = x; } # end\n", 5, "{ }", "f { } # end\n"),
    ];
    for (text, number, part, wanted) in cases {
        let found = is_spliced(rt.alloc(), text, number, part, wanted)?;
        assert!(rt; found == Some(true), "of {text} with {part}");
    }
    Ok(())
}

#[test]
fn a_token_is_no_only_child(rt: HostRuntime) -> Result<(), Fail> {
    let cases = [
        ("1 # one", false),
        ("# one\n1", false),
        ("", false),
        ("1", true),
    ];
    for (text, wanted) in cases {
        let read = Parsed::new(rt.alloc(), text)?;
        assert!(rt; read.green().has_only_child() == wanted, "of {text}");
    }
    Ok(())
}
