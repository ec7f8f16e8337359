//! The names that nodes bind.

ghost use Rattle.std.specs.Prelude.{◌≡◌, ◌++◌, Some, map, option_map, IfOk, IfSome, OnOk};
ghost use Rattle.std.specs.Cow.{cow_str_bytes};
ghost use Rattle.std.specs.List.{list_any};
ghost use Rattle.rnix_kinds.specs.declared.kinds.SyntaxKind.TheVariants as k;
ghost use Rattle.rnix_green.specs.Equality.{same_kind};
ghost use Rattle.rnix_base.specs.Select.{child_of};
ghost use Rattle.rnix.specs.AttrName.{static_name};
ghost use Rattle.rnix.specs.NodeKinds.{is_param};
ghost use Rattle.rnix.specs.Sums.{attr_node};
ghost use Rattle.nix_scopes.specs.Names.{may_differ, quoted_content, named_if};
ghost use Rattle.nix_scopes.specs.Binders.{named, ident_name, path_name, inherit_names, entry_names, entries_names};
ghost use Rattle.nix_scopes.specs.Binders.{bind_name, pattern_names, param_names, lambda_names, names_bound};

use rnix::ast::{
    AstNode, AstToken, Attr, AttrpathValue, Ident, IdentParam, Inherit, InterpolPart, Lambda,
    Pattern, Str,
};
use rnix::{SyntaxKind, SyntaxNode};
use rnix_base::is_indented;
use std::alloc::{AllocError, Global};
use std::borrow::CowStr;

/// A name, and the node that writes it: an identifier, a string or a `${}`.
#[derive(Drop)]
pub struct Name<'t> {
    pub text: CowStr<'t>,
    pub node: SyntaxNode<'t>,
}

// Returns whether a text between `"` may differ from its value.
fn may_differ(text: &str) -> bool
    ensures { result ≡ list_any may_differ text.now }
{
    text.bytes().any(
        |byte: u8| -> bool
            ensures { result ≡ may_differ byte }
        { byte == b'\\' || byte == b'"' || byte == b'\r' },
    )
}

// Returns the content of a string in `"`, if it is the string's value.
fn quoted_content<'t>(string: &Str<'t>) -> Option<&'t str>
    ensures { option_map (λ text. text.now) result ≡ quoted_content string.now }
{
    if is_indented(string.syntax()) {
        return None;
    }
    let mut parts = string.parts();
    match (parts.next(), parts.next()) {
        (Some(InterpolPart::Literal(token)), None) => {
            let text = token.syntax().text();
            if may_differ(text) { None } else { Some(text) }
        }
        _ => None,
    }
}

// Returns an attribute's name as Nix reads it, if the name is a part of the text: an identifier, or the content of a string in `"`.
fn written_text<'t>(node: &SyntaxNode<'t>) -> Option<&'t str>
    ensures { IfSome result (λ text. static_name node.now ≡ Some text.now) }
{
    match node.kind() {
        SyntaxKind::NODE_IDENT => Some(node.text()),
        SyntaxKind::NODE_STRING => quoted_content(&Str::cast(node.clone())?),
        _ => None,
    }
}

/// Returns an attribute's name as Nix reads it, if the text alone determines it. Allocates only for a name that differs from its text.
pub fn attr_name<'t>(alloc: Global, attr: &Attr<'t>) -> Result<Option<CowStr<'t>>, AllocError>
    ensures { IfOk result (λ name. option_map cow_str_bytes name ≡ static_name (attr_node attr.now)) }
{
    if let Some(text) = written_text(attr.syntax()) {
        return Ok(Some(CowStr::Borrowed(text)));
    }
    match attr.static_name(alloc)? {
        Some(name) => Ok(Some(CowStr::Owned(name))),
        None => Ok(None),
    }
}

// Adds an attribute's name, if the text alone determines it.
fn add_attr<'t>(alloc: Global, attr: &Attr<'t>, names: &mut Vec<Name<'t>>) -> Result<(), AllocError>
    ensures { OnOk result (map named names.new.items
        ≡ map named names.old.items ++ named_if (attr_node attr.now) (static_name (attr_node attr.now))) }
{
    if let Some(text) = attr_name(alloc, attr)? {
        let node = attr.syntax().clone();
        names.push(Name { text, node })?;
    }
    Ok(())
}

// Adds the names that an `inherit` binds.
fn add_inherit<'t>(
    alloc: Global,
    inherit: &Inherit<'t>,
    names: &mut Vec<Name<'t>>,
) -> Result<(), AllocError>
    ensures { OnOk result (map named names.new.items ≡ map named names.old.items ++ inherit_names inherit.now) }
{
    for attr in inherit.attrs() {
        add_attr(alloc, &attr, names)?;
    }
    Ok(())
}

// Adds the first name of a path, which an entry with a value binds.
fn add_path<'t>(
    alloc: Global,
    value: &AttrpathValue<'t>,
    names: &mut Vec<Name<'t>>,
) -> Result<(), AllocError>
    ensures { OnOk result (map named names.new.items ≡ map named names.old.items ++ path_name (child_of (same_kind k.NODE_ATTRPATH) 0 value.now)) }
{
    let Some(path) = value.attrpath() else {
        return Ok(());
    };
    match path.attrs().next() {
        Some(attr) => add_attr(alloc, &attr, names),
        None => Ok(()),
    }
}

// Adds the names that a node binds, if it is an entry.
fn add_entry<'t>(
    alloc: Global,
    entry: SyntaxNode<'t>,
    names: &mut Vec<Name<'t>>,
) -> Result<(), AllocError>
    ensures { OnOk result (map named names.new.items ≡ map named names.old.items ++ entry_names entry.entry) }
{
    if let Some(inherit) = Inherit::cast(entry.clone()) {
        return add_inherit(alloc, &inherit, names);
    }
    match AttrpathValue::cast(entry) {
        Some(value) => add_path(alloc, &value, names),
        None => Ok(()),
    }
}

// Adds the names that the entries of a node bind.
fn add_entries<'t>(
    alloc: Global,
    scope: &SyntaxNode<'t>,
    names: &mut Vec<Name<'t>>,
) -> Result<(), AllocError>
    ensures { OnOk result (map named names.new.items ≡ map named names.old.items ++ entries_names scope.now) }
{
    for entry in scope.children() {
        add_entry(alloc, entry, names)?;
    }
    Ok(())
}

// Adds the name of an identifier.
fn add_ident<'t>(ident: Option<Ident<'t>>, names: &mut Vec<Name<'t>>) -> Result<(), AllocError>
    ensures { OnOk result (map named names.new.items ≡ map named names.old.items ++ ident_name ident.entry) }
{
    if let Some(ident) = ident {
        let node = ident.syntax().clone();
        let text = CowStr::Borrowed(node.text());
        names.push(Name { text, node })?;
    }
    Ok(())
}

// Adds the name of a whole pattern.
fn add_pat_bind<'t>(pattern: &Pattern<'t>, names: &mut Vec<Name<'t>>) -> Result<(), AllocError>
    ensures { OnOk result (map named names.new.items ≡ map named names.old.items ++ bind_name (child_of (same_kind k.NODE_PAT_BIND) 0 pattern.now)) }
{
    match pattern.pat_bind() {
        Some(bind) => add_ident(bind.ident(), names),
        None => Ok(()),
    }
}

// Adds the names that a pattern binds.
fn add_pattern<'t>(pattern: &Pattern<'t>, names: &mut Vec<Name<'t>>) -> Result<(), AllocError>
    ensures { OnOk result (map named names.new.items ≡ map named names.old.items ++ pattern_names pattern.now) }
{
    add_pat_bind(pattern, names)?;
    for entry in pattern.pat_entries() {
        add_ident(entry.ident(), names)?;
    }
    Ok(())
}

// Adds the names that a parameter binds.
fn add_param<'t>(param: SyntaxNode<'t>, names: &mut Vec<Name<'t>>) -> Result<(), AllocError>
    ensures { OnOk result (map named names.new.items ≡ map named names.old.items ++ param_names param.entry) }
{
    if let Some(pattern) = Pattern::cast(param.clone()) {
        return add_pattern(&pattern, names);
    }
    match IdentParam::cast(param) {
        Some(param) => add_ident(param.ident(), names),
        None => Ok(()),
    }
}

// Adds the names that the parameter of a function binds.
fn add_lambda<'t>(lambda: &Lambda<'t>, names: &mut Vec<Name<'t>>) -> Result<(), AllocError>
    ensures { OnOk result (map named names.new.items ≡ map named names.old.items ++ lambda_names (child_of is_param 0 lambda.now)) }
{
    match lambda.param() {
        Some(param) => add_param(param.syntax().clone(), names),
        None => Ok(()),
    }
}

/// Replaces the contents of `names` by the names that a scope binds, in order. The name of a whole pattern comes first.
pub fn names_bound<'t>(
    alloc: Global,
    scope: &SyntaxNode<'t>,
    names: &mut Vec<Name<'t>>,
) -> Result<(), AllocError>
    ensures { OnOk result (map named names.new.items ≡ names_bound scope.now) }
{
    names.clear();
    match Lambda::cast(scope.clone()) {
        Some(lambda) => add_lambda(&lambda, names)?,
        None => add_entries(alloc, scope, names)?,
    }
    Ok(())
}
