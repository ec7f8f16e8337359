//! The names that scopes bind, found by accessors of typed nodes.

use rnix::ast::{AstNode, Attr, AttrSet, AttrpathValue, Ident, Inherit, Lambda, Param, Pattern};
use rnix::{SyntaxKind, SyntaxNode};
use std::alloc::{AllocError, Global};

/// A name, and its node.
#[derive(Drop)]
pub struct Name<'t> {
    pub text: String,
    pub node: SyntaxNode<'t>,
}

/// Whether the names that a node binds are in scope inside it.
pub fn is_scope(node: &SyntaxNode<'_>) -> bool {
    match node.kind() {
        SyntaxKind::NODE_LET_IN | SyntaxKind::NODE_LEGACY_LET | SyntaxKind::NODE_LAMBDA => true,
        _ => match AttrSet::cast(node.clone()) {
            Some(set) => set.rec_token().is_some(),
            None => false,
        },
    }
}

// Adds the name of an attribute, if the text alone determines it.
fn add_attr<'t>(
    alloc: Global,
    attr: &Attr<'t>,
    names: &mut Vec<Name<'t>>,
) -> Result<(), AllocError> {
    if let Some(text) = attr.static_name(alloc)? {
        let node = attr.syntax().clone();
        names.push(Name { text, node })?;
    }
    Ok(())
}

// Adds the name of an identifier.
fn add_ident<'t>(
    alloc: Global,
    ident: Option<Ident<'t>>,
    names: &mut Vec<Name<'t>>,
) -> Result<(), AllocError> {
    if let Some(ident) = ident {
        let node = ident.syntax().clone();
        let text = String::from_str(alloc, node.text())?;
        names.push(Name { text, node })?;
    }
    Ok(())
}

// Adds the names of a pattern: first the one that `@` binds, then those of the entries.
fn add_pattern<'t>(
    alloc: Global,
    pattern: &Pattern<'t>,
    names: &mut Vec<Name<'t>>,
) -> Result<(), AllocError> {
    if let Some(bind) = pattern.pat_bind() {
        add_ident(alloc, bind.ident(), names)?;
    }
    for entry in pattern.pat_entries() {
        add_ident(alloc, entry.ident(), names)?;
    }
    Ok(())
}

// Adds the names of an entry.
fn add_entry<'t>(
    alloc: Global,
    entry: SyntaxNode<'t>,
    names: &mut Vec<Name<'t>>,
) -> Result<(), AllocError> {
    if let Some(inherit) = Inherit::cast(entry.clone()) {
        for attr in inherit.attrs() {
            add_attr(alloc, &attr, names)?;
        }
        return Ok(());
    }
    let first = AttrpathValue::cast(entry)
        .and_then(|value| value.attrpath())
        .and_then(|path| path.attrs().next());
    match first {
        Some(attr) => add_attr(alloc, &attr, names),
        None => Ok(()),
    }
}

/// Returns the names that a scope binds, in order.
pub fn names_bound<'t>(alloc: Global, scope: &SyntaxNode<'t>) -> Result<Vec<Name<'t>>, AllocError> {
    let mut names = Vec::new(alloc);
    if let Some(lambda) = Lambda::cast(scope.clone()) {
        match lambda.param() {
            Some(Param::Pattern(pattern)) => add_pattern(alloc, &pattern, &mut names)?,
            Some(Param::IdentParam(param)) => add_ident(alloc, param.ident(), &mut names)?,
            None => {}
        }
        return Ok(names);
    }
    for entry in scope.children() {
        add_entry(alloc, entry, &mut names)?;
    }
    Ok(names)
}
