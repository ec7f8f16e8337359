//! The parts of paths.

use rnix::ast::{AstNode, InterpolPart, Path, PathContent};
use rnix::{Parse, Root};
use std::alloc::{AllocError, Global};
use std::test::Fail;

// Parts one after another: texts in parentheses, interpolations as they are written.
fn written(
    alloc: Global,
    parts: &[InterpolPart<'_, PathContent<'_>>],
) -> Result<String, AllocError> {
    let mut said = String::new(alloc);
    for part in parts {
        match part {
            InterpolPart::Literal(content) => {
                said.push('(')?;
                said.push_str(content.text())?;
                said.push(')')?;
            }
            InterpolPart::Interpolation(node) => said.push_str(node.syntax().text())?,
        }
    }
    Ok(said)
}

// The path that a text is.
fn path_in(read: &Parse) -> Option<Path<'_>> {
    Path::cast(read.tree().expr()?.syntax().clone())
}

// The parts of the path that a text is, and whether it is searched for.
fn parts_of(alloc: Global, text: &str) -> Result<Option<(String, bool)>, AllocError> {
    let read = Root::parse(alloc, text)?;
    let Some(path) = path_in(&read) else {
        return Ok(None);
    };
    let searched = path.is_search() && !path.is_interpolatable();
    Ok(Some((written(alloc, &path.parts(alloc)?)?, searched)))
}

// Whether the text is a path of these parts.
fn are_parts(alloc: Global, text: &str, parts: &str, searched: bool) -> Result<bool, AllocError> {
    Ok(match parts_of(alloc, text)? {
        Some(found) => found.0.as_str() == parts && found.1 == searched,
        None => false,
    })
}

#[test]
fn paths_have_parts(rt: HostRuntime) -> Result<(), Fail> {
    let cases = [
        ("./a ${x}", "(./a)${x}", false),
        ("./a${x}~/b", "(./a)${x}(~/b)", false),
        ("./a/${\"hello\"}", "(./a/)${\"hello\"}", false),
        ("/foo/bar", "(/foo/bar)", false),
        ("~/a", "(~/a)", false),
        ("<nixpkgs>", "(<nixpkgs>)", true),
    ];
    for (text, parts, searched) in cases {
        assert!(rt; are_parts(rt.alloc(), text, parts, searched)?, "of {text}");
    }
    Ok(())
}
