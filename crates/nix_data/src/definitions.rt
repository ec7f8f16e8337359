//! The definitions of an attribute.

ghost use Rattle.std.specs.Prelude.{◌≡◌, ◌++◌, ◌∷◌, [], Some, None, option_map};
ghost use Rattle.rnix_kinds.specs.declared.kinds.SyntaxKind.TheVariants as k;
ghost use Rattle.rnix_green.specs.Equality.{same_kind};
ghost use Rattle.rnix_base.specs.Select.{those_of, nodes_of, child_of};
ghost use Rattle.rnix.specs.NodeKinds.{is_attr, is_expr};
ghost use Rattle.nix_data.specs.Definitions.{names_of, definition_of, definitions_of};
ghost use Rattle.nix_data.specs.Selection.{only, is_defined, defined_by, defined_in, inherited_by, with_defined, definitions_in};
ghost use Rattle.nix_data.specs.Refusals.{Reads};

use crate::definition::{Definition, Names};
use crate::no_data::Reason;
use crate::scalars::{Stop, evaluated, key, no_data};
use rnix::ast::{AstChildren, AstNode, Attr, AttrpathValue, Inherit};
use rnix::{SyntaxKind, SyntaxNode};
use std::alloc::Global;

/// Returns the definition of a value without a name.
pub fn only<'t>(value: SyntaxNode<'t>) -> Definition<'t>
    ensures { definition_of result ∷ [] ≡ only value.entry }
{
    Definition {
        range: value.text_range(),
        names: None,
        value,
    }
}

/// Returns whether there are definitions.
pub fn is_defined(found: &Vec<Definition<'_>>) -> bool
    ensures { result ≡ is_defined (definitions_of found.now.items) }
{
    !found.is_empty()
}

// Returns the names of a path that are left.
fn names_left<'t>(mut others: AstChildren<'t, Attr<'t>>) -> Option<Names<'t>>
    ensures { names_of result ≡ those_of is_attr others.entry }
{
    let first = others.next()?;
    Some(Names { first, others })
}

/// Adds the definition of the attribute with a name by an entry with these names and this value, if it defines the attribute.
pub fn define<'t>(
    alloc: Global,
    name: &str,
    names: Names<'t>,
    value: SyntaxNode<'t>,
    found: &mut Vec<Definition<'t>>,
) -> Result<(), Stop>
    ensures { Reads result
        (option_map (λ more. definitions_of found.old.items ++ more) (defined_by name.now (names_of (Some names.entry)) value.entry))
        (λ done. definitions_of found.new.items) }
{
    let Names { first, others } = names;
    let key = key(alloc, &first)?;
    if key.as_str() == name {
        found.push(Definition {
            range: first.syntax().text_range(),
            names: names_left(others),
            value,
        })?;
    }
    Ok(())
}

// Adds the definition of the attribute with a name by an entry, if it defines the attribute.
fn define_in<'t>(
    alloc: Global,
    name: &str,
    entry: &AttrpathValue<'t>,
    found: &mut Vec<Definition<'t>>,
) -> Result<(), Stop>
    ensures { Reads result
        (option_map (λ more. definitions_of found.old.items ++ more)
        (defined_in name.now (child_of (same_kind k.NODE_ATTRPATH) 0 entry.now) (child_of is_expr 0 entry.now)))
        (λ done. definitions_of found.new.items) }
{
    let (Some(path), Some(value)) = (entry.attrpath(), entry.value()) else {
        return Err(evaluated(entry.syntax()));
    };
    match names_left(path.attrs()) {
        Some(names) => define(alloc, name, names, value.syntax().clone(), found),
        None => Err(evaluated(path.syntax())),
    }
}

// Checks that an `inherit` does not have a name.
fn check_inherit(alloc: Global, name: &str, inherit: &Inherit<'_>) -> Result<(), Stop>
    ensures { Reads result (inherited_by name.now (nodes_of is_attr inherit.now)) (λ done. []) }
{
    for attr in inherit.attrs() {
        let key = key(alloc, &attr)?;
        if key.as_str() == name {
            let range = attr.syntax().text_range();
            return Err(no_data(Reason::Evaluated(SyntaxKind::NODE_INHERIT), range));
        }
    }
    Ok(())
}

// Adds the definition of the attribute with a name by a node of a set or a `let`, if it defines the attribute.
fn define_at<'t>(
    alloc: Global,
    name: &str,
    node: &SyntaxNode<'t>,
    found: &mut Vec<Definition<'t>>,
) -> Result<(), Stop>
    ensures { Reads result
        (with_defined name.now node.now (definitions_of found.old.items)) (λ done. definitions_of found.new.items) }
{
    if let Some(entry) = AttrpathValue::cast(node.clone()) {
        return define_in(alloc, name, &entry, found);
    }
    match Inherit::cast(node.clone()) {
        Some(inherit) => check_inherit(alloc, name, &inherit),
        None => Ok(()),
    }
}

/// Returns the definitions of the attribute with a name in a set or a `let`.
pub fn definitions_in<'t>(
    alloc: Global,
    name: &str,
    scope: &SyntaxNode<'t>,
) -> Result<Vec<Definition<'t>>, Stop>
    ensures { Reads result (definitions_in name.now scope.now) (λ found. definitions_of found.items) }
{
    let mut found = Vec::new(alloc);
    for node in scope.children() {
        define_at(alloc, name, &node, &mut found)?;
    }
    Ok(found)
}
