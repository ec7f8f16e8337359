//! Uses of typed nodes, as docs/uses.md and docs/first-program.md show them.

use rnix::Root;
use rnix::ast::{
    AstNode, Attr, AttrSet, Attrpath, AttrpathValue, Entry, Expr, HasEntry, InterpolPart, LetIn,
    Str,
};
use std::alloc::{AllocError, Global};
use std::io;
use std::io::Write;
use std::test::Fail;

// Appends the names that an entry binds: the first name of its path, or the names that it inherits.
fn entry_names<'t>(entry: &Entry<'t>, names: &mut Vec<Attr<'t>>) -> Result<(), AllocError> {
    match entry {
        Entry::AttrpathValue(value) => {
            names.extend(value.attrpath().and_then(|path| path.attrs().next()))
        }
        Entry::Inherit(inherit) => names.extend(inherit.attrs()),
    }
}

// Returns the names that a `let` binds.
fn bound_names<'t>(alloc: Global, binding: &LetIn<'t>) -> Result<Vec<Attr<'t>>, AllocError> {
    let mut names = Vec::new(alloc);
    for entry in binding.entries() {
        entry_names(&entry, &mut names)?;
    }
    Ok(names)
}

// Writes a line for each name, with its range.
fn write_names(names: &[Attr<'_>], out: &mut Vec<u8>) -> io::Result<()> {
    for name in names {
        let range = name.syntax().text_range();
        let (start, end) = (range.start(), range.end());
        write!(out, "{name} at {start}..{end}\n")?;
    }
    Ok(())
}

#[test]
fn names_that_a_let_binds(rt: HostRuntime) -> Result<(), Fail> {
    let text = "let a.b = 1; inherit (c) d e; inherit f; in a";
    let read = Root::parse(rt.alloc(), text)?;
    let mut said = Vec::new(rt.alloc());
    if let Some(Expr::LetIn(binding)) = read.tree().expr() {
        write_names(&bound_names(rt.alloc(), &binding)?, &mut said)?;
    }
    let wanted = "a at 4..5\nd at 25..26\ne at 27..28\nf at 38..39\n";
    assert_eq!(rt; said.as_slice(), wanted.as_bytes());
    Ok(())
}

// Returns the names of a path joined by dots, without the trivia between them.
fn dotted(alloc: Global, path: &Attrpath<'_>) -> Result<String, AllocError> {
    let mut text = String::new(alloc);
    for attr in path.attrs() {
        if !text.is_empty() {
            text.push('.')?;
        }
        text.push_str(attr.syntax().text())?;
    }
    Ok(text)
}

// Returns the dotted paths of a set with their values.
fn paths_and_values<'t>(
    alloc: Global,
    set: &AttrSet<'t>,
) -> Result<Vec<(String, Expr<'t>)>, AllocError> {
    let mut found = Vec::new(alloc);
    for entry in set.attrpath_values() {
        if let (Some(path), Some(value)) = (entry.attrpath(), entry.value()) {
            found.push((dotted(alloc, &path)?, value))?;
        }
    }
    Ok(found)
}

// Writes a line for each path with its value.
fn write_values(found: &[(String, Expr<'_>)], out: &mut Vec<u8>) -> io::Result<()> {
    for (path, value) in found {
        write!(out, "{path} = {value}\n")?;
    }
    Ok(())
}

#[test]
fn paths_and_values_of_a_set(rt: HostRuntime) -> Result<(), Fail> {
    let text = "{ a . b = 1; inherit c; \"d e\".${f} = [ g ]; }";
    let read = Root::parse(rt.alloc(), text)?;
    let mut said = Vec::new(rt.alloc());
    if let Some(Expr::AttrSet(set)) = read.tree().expr() {
        write_values(&paths_and_values(rt.alloc(), &set)?, &mut said)?;
    }
    let wanted = "a.b = 1\n\"d e\".${f} = [ g ]\n";
    assert_eq!(rt; said.as_slice(), wanted.as_bytes());
    Ok(())
}

// Returns the value of a string, or None if a part of it is an interpolation.
fn text_of(alloc: Global, string: &Str<'_>) -> Result<Option<String>, AllocError> {
    let mut text = String::new(alloc);
    for part in &string.normalized_parts(alloc)? {
        match part {
            InterpolPart::Literal(literal) => text.push_str(literal.as_str())?,
            InterpolPart::Interpolation(_) => return Ok(None),
        }
    }
    Ok(Some(text))
}

#[test]
fn the_text_of_an_indented_string(rt: HostRuntime) -> Result<(), Fail> {
    let text = "''\n    cd $out\n      echo ''${HOME}\n  ''";
    let read = Root::parse(rt.alloc(), text)?;
    let Some(Expr::Str(string)) = read.tree().expr() else {
        assert!(rt; false);
        return Ok(());
    };
    let found = text_of(rt.alloc(), &string)?;
    assert!(rt; found.is_some_and(|found| found.as_str() == "cd $out\n  echo ${HOME}\n"));
    Ok(())
}

// Returns the name that an entry binds, if its path is one plain name.
fn single_name<'t>(entry: &AttrpathValue<'t>) -> Option<&'t str> {
    let mut names = entry.attrpath()?.attrs();
    match (names.next(), names.next()) {
        (Some(Attr::Ident(name)), None) => Some(name.syntax().text()),
        _ => None,
    }
}

#[test]
fn an_entry_binds_a_single_name(rt: HostRuntime) -> Result<(), Fail> {
    let read = Root::parse(rt.alloc(), "{ a = 1; b.c = 2; \"d\" = 3; e = 4; }")?;
    let mut names = String::new(rt.alloc());
    if let Some(Expr::AttrSet(set)) = read.tree().expr() {
        for entry in set.attrpath_values() {
            names.push_str(single_name(&entry).unwrap_or("-"))?;
        }
    }
    assert_eq!(rt; names.as_str(), "a--e");
    Ok(())
}
