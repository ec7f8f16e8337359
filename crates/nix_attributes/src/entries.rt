//! The names that the entries of a text define, one after another.

ghost use Rattle.std.specs.Prelude.{◌≡◌, ◌∷◌, [], Some, map, option_map, IfOk, IfSome, OnOk};
ghost use Rattle.std.specs.Cow.{cow_str_bytes};
ghost use Rattle.rnix_kinds.specs.declared.kinds.SyntaxKind.TheVariants as k;
ghost use Rattle.rnix_green.specs.Equality.{same_kind};
ghost use Rattle.rnix_base.specs.Select.{child_of, nodes_of};
ghost use Rattle.rnix.specs.AttrName.{static_name};
ghost use Rattle.rnix.specs.NodeKinds.{is_attr, is_expr};
ghost use Rattle.rnix.specs.Sums.{attr_node};
ghost use Rattle.nix_attributes.specs.Attributes.{AddsNames};
ghost use Rattle.nix_attributes.specs.DefinedNames.{set_of, set_number, definition_at, inherited_at, names_of, path_names, names_at};

use crate::attributes::Attributes;
use crate::definition::{Definition, NameSite};
use rnix::ast::{AstNode, Attr, Attrpath, AttrpathValue, Inherit, without_parens};
use rnix::{SyntaxKind, SyntaxNode};
use std::alloc::{AllocError, Global};
use std::borrow::CowStr;

// Returns the set in an expression, possibly in parentheses.
fn set_of<'t>(expr: &SyntaxNode<'t>) -> Option<SyntaxNode<'t>>
    ensures { result ≡ set_of expr.now }
{
    let inner = without_parens(expr);
    if inner.kind() == SyntaxKind::NODE_ATTR_SET {
        Some(inner)
    } else {
        None
    }
}

// Returns the number of the set that is the value of an entry.
fn set_number<'t>(entry: &AttrpathValue<'t>) -> Option<usize>
    ensures { result ≡ set_number (child_of is_expr 0 entry.now) }
{
    let value = entry.value()?;
    let set = set_of(value.syntax())?;
    Some(set.number())
}

// Returns the text of a name, if it is an identifier.
fn written_text<'t>(node: &SyntaxNode<'t>) -> Option<&'t str>
    ensures { IfSome result (λ text. static_name node.now ≡ Some text.now) }
{
    match node.kind() {
        SyntaxKind::NODE_IDENT => Some(node.text()),
        _ => None,
    }
}

// Returns the name as Nix reads it, if the text alone determines it. Allocates only for names that are not identifiers.
fn text_of<'t>(alloc: Global, attr: &Attr<'t>) -> Result<Option<CowStr<'t>>, AllocError>
    ensures { IfOk result (λ text. option_map cow_str_bytes text ≡ static_name (attr_node attr.now)) }
{
    if let Some(text) = written_text(attr.syntax()) {
        return Ok(Some(CowStr::Borrowed(text)));
    }
    match attr.static_name(alloc)? {
        Some(text) => Ok(Some(CowStr::Owned(text))),
        None => Ok(None),
    }
}

// Adds a name. If other entries may add names to its attribute, `inner` is the owner of these.
fn add_name<'t>(
    alloc: Global,
    attr: &Attr<'t>,
    owner: usize,
    continues: bool,
    inner: Option<usize>,
    attributes: &mut Attributes<'t>,
) -> Result<(), AllocError>
    ensures { OnOk result (AddsNames attributes.old attributes.new (definition_at owner continues inner (attr_node attr.now) ∷ [])) }
{
    let text = text_of(alloc, attr)?;
    let range = attr.syntax().text_range();
    attributes.add(Definition {
        text,
        name_site: NameSite {
            range,
            owner,
            inner: inner.unwrap_or(attr.syntax().number()),
            continues,
            is_open: inner.is_some(),
        },
    })
}

// Adds the names of a path whose entry has the set with the number `set` as its value, if there is one.
fn add_path<'t>(
    alloc: Global,
    owner: usize,
    set: Option<usize>,
    path: &Attrpath<'t>,
    attributes: &mut Attributes<'t>,
) -> Result<(), AllocError>
    ensures { OnOk result (AddsNames attributes.old attributes.new (names_of owner set (nodes_of is_attr path.now))) }
{
    let mut attrs = path.attrs();
    let Some(mut last) = attrs.next() else {
        return Ok(());
    };
    let mut before = owner;
    let mut continues = false;
    for attr in attrs {
        let number = last.syntax().number();
        add_name(alloc, &last, before, continues, Some(number), attributes)?;
        before = number;
        continues = true;
        last = attr;
    }
    add_name(alloc, &last, before, continues, set, attributes)
}

// Adds the names that are inherited.
fn add_inherited<'t>(
    alloc: Global,
    owner: usize,
    inherit: &Inherit<'t>,
    attributes: &mut Attributes<'t>,
) -> Result<(), AllocError>
    ensures { OnOk result (AddsNames attributes.old attributes.new (map (inherited_at owner) (nodes_of is_attr inherit.now))) }
{
    for attr in inherit.attrs() {
        add_name(alloc, &attr, owner, false, None, attributes)?;
    }
    Ok(())
}

// Adds the names of an entry with a value.
fn add_entry<'t>(
    alloc: Global,
    owner: usize,
    entry: &AttrpathValue<'t>,
    attributes: &mut Attributes<'t>,
) -> Result<(), AllocError>
    ensures { OnOk result (AddsNames attributes.old attributes.new
        (path_names owner (set_number (child_of is_expr 0 entry.now)) (child_of (same_kind k.NODE_ATTRPATH) 0 entry.now))) }
{
    match entry.attrpath() {
        Some(path) => add_path(alloc, owner, set_number(entry), &path, attributes),
        None => Ok(()),
    }
}

/// Adds the names of a node, if it is an entry of a set or a `let`.
pub fn add_names<'t>(
    alloc: Global,
    node: SyntaxNode<'t>,
    attributes: &mut Attributes<'t>,
) -> Result<(), AllocError>
    ensures { OnOk result (AddsNames attributes.old attributes.new (names_at node.entry)) }
{
    if let Some(inherit) = Inherit::cast(node.clone()) {
        return match node.parent() {
            Some(set) => add_inherited(alloc, set.number(), &inherit, attributes),
            None => Ok(()),
        };
    }
    if let Some(entry) = AttrpathValue::cast(node.clone()) {
        return match node.parent() {
            Some(set) => add_entry(alloc, set.number(), &entry, attributes),
            None => Ok(()),
        };
    }
    Ok(())
}
