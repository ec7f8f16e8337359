//! Resolving the names of a text in one pass.

ghost use Rattle.std.specs.Prelude.{◌≡◌, ◌++◌, [], ◌∷◌, map, IfOk, OnOk, true};
ghost use Rattle.rnix_green.specs.Relatives.{parent_of};
ghost use Rattle.nix_scopes.specs.Bound.{bindings_of, references_of, listed, bound_of, resolved_of, AreFirst};
ghost use Rattle.std.specs.Cow.{cow_str_bytes};
ghost use Rattle.rnix.specs.AttrName.{static_name};
ghost use Rattle.rnix.specs.Sums.{attr_node};
ghost use Rattle.nix_scopes.specs.Names.{named_if};
ghost use Rattle.nix_scopes.specs.Binders.{named};
ghost use Rattle.nix_scopes.specs.References.{inherited_at, references_at, references_in};
ghost use Rattle.nix_scopes.specs.Resolved.{bindings_in, resolved_in};
ghost use Rattle.nix_scopes.specs.Scopes.{lexical_bindings, lexical_references};
ghost use Rattle.nix_scopes.specs.Resolving.{is_in_scope, number_in_scope, referring, resolve_name, resolve_at};

use crate::environment::Environment;
use crate::globals::is_global;
use crate::merged::resolve_merged;
use crate::name_roles::is_expression;
use crate::names::{Name, attr_name};
use crate::owners::may_merge;
use crate::resolution::{Reference, Resolution};
use crate::symbols::SymbolTable;
use rnix::ast::{AstNode, Attr, Inherit};
use rnix::{NodeOrToken, SyntaxNode};
use std::alloc::{AllocError, Global};
use std::borrow::CowStr;

// Adds a reference to the binding with a number, or to none.
fn add_reference<'t>(
    around: &Environment<'t>,
    binding: Option<usize>,
    is_inherited: bool,
    name: Name<'t>,
    references: &mut Vec<Reference<'t>>,
) -> Result<(), AllocError>
    ensures { OnOk result (map resolved_of references.new.items ≡ map resolved_of references.old.items
        ++ referring around.now binding is_inherited (named name.entry) ∷ []) }
{
    let may_be_open = around.is_below_with() && !is_global(name.text.as_str());
    references.push(Reference {
        text: name.text,
        node: name.node,
        is_inherited,
        binding,
        is_open: binding.is_none() && may_be_open,
    })?;
    Ok(())
}

// Adds a reference for an inherited name, if the text alone determines the name. If the innermost scope is the set or the `let` of the `inherit`, the name is
// looked up outside it.
fn add_inherited<'t>(
    alloc: Global,
    around: &Environment<'t>,
    in_scope: bool,
    attr: &Attr<'t>,
    references: &mut Vec<Reference<'t>>,
) -> Result<(), AllocError>
    ensures { OnOk result (map resolved_of references.new.items ≡ map resolved_of references.old.items
        ++ map (resolve_name around.now in_scope true) (named_if (attr_node attr.now) (static_name (attr_node attr.now)))) }
{
    match attr_name(alloc, attr)? {
        Some(text) => {
            let binding = number_of(&around.symbols, in_scope, &text)?;
            let node = attr.syntax().clone();
            add_reference(around, binding, true, Name { text, node }, references)
        }
        None => Ok(()),
    }
}

// Returns the number of a name's binding, in all scopes or outside the innermost one.
fn number_of<'t>(
    symbols: &SymbolTable<'t>,
    is_outer: bool,
    text: &CowStr<'t>,
) -> Result<Option<usize>, AllocError>
    ensures { IfOk result (λ number. number ≡ number_in_scope symbols.now is_outer (cow_str_bytes text.now)) }
{
    let number = symbols.number_of(text)?;
    if is_outer {
        Ok(symbols.outer_number(number))
    } else {
        Ok(number)
    }
}

// Returns whether the parent of the current node is a scope.
fn is_in_scope(around: &Environment<'_>, node: &SyntaxNode<'_>) -> bool
    ensures { result ≡ is_in_scope around.now (parent_of node.now) }
{
    match node.parent() {
        Some(parent) => around.is_scope_around(&parent),
        None => false,
    }
}

// Adds the names that are inherited from around the `let` or the set.
fn add_all_inherited<'t>(
    alloc: Global,
    around: &Environment<'t>,
    inherit: &Inherit<'t>,
    references: &mut Vec<Reference<'t>>,
) -> Result<(), AllocError>
    ensures { OnOk result (map resolved_of references.new.items ≡ map resolved_of references.old.items
        ++ map (resolve_name around.now (is_in_scope around.now (parent_of inherit.now)) true) (inherited_at inherit.now)) }
{
    if inherit.from().is_some() {
        return Ok(());
    }
    let in_scope = is_in_scope(around, inherit.syntax());
    for attr in inherit.attrs() {
        add_inherited(alloc, around, in_scope, &attr, references)?;
    }
    Ok(())
}

// Adds the references of a node: the node itself, or its inherited names.
fn add_references<'t>(
    alloc: Global,
    around: &Environment<'t>,
    node: SyntaxNode<'t>,
    references: &mut Vec<Reference<'t>>,
) -> Result<(), AllocError>
    ensures { OnOk result (map resolved_of references.new.items ≡ map resolved_of references.old.items
        ++ map (resolve_at around.now node.entry) (references_at node.entry)) }
{
    if is_expression(&node) {
        let text = node.text();
        let binding = around.symbols.number(text);
        let text = CowStr::Borrowed(text);
        return add_reference(around, binding, false, Name { text, node }, references);
    }
    match Inherit::cast(node) {
        Some(inherit) => add_all_inherited(alloc, around, &inherit, references),
        None => Ok(()),
    }
}

// Resolves the names inside a node in which no entry adds to a scope.
fn resolve_lexically<'t>(alloc: Global, root: &SyntaxNode<'t>) -> Result<Resolution<'t>, AllocError>
    ensures bindings { IfOk result (λ names. map bound_of (bindings_of names) ≡ lexical_bindings root.now) }
    ensures firsts { IfOk result (λ names. AreFirst (bindings_of names)) }
    ensures resolved { IfOk result (λ names. map resolved_of (references_of names) ≡ lexical_references root.now) }
{
    let mut bindings = Vec::new(alloc);
    let mut references = Vec::new(alloc);
    let mut around = Environment::new(alloc);
    // The number of elements after the current one.
    let mut remaining = root.inside_count();
    for element in root.descendants_with_tokens() {
        if let NodeOrToken::Node(node) = element {
            around.leave_ended(remaining, &bindings)?;
            around.enter(alloc, &node, remaining, &mut bindings)?;
            add_references(alloc, &around, node, &mut references)?;
        }
        remaining = remaining.saturating_sub(1);
    }
    Ok(Resolution {
        bindings,
        references,
    })
}

/// Resolves the names inside a node. A name refers to the innermost binding of that name around it, even inside `with`. An entry that adds to a set which
/// another entry defines is inside that set, as in Nix.
pub fn resolve<'t>(alloc: Global, root: &SyntaxNode<'t>) -> Result<Resolution<'t>, AllocError>
    ensures bindings { IfOk result (λ names. map bound_of (bindings_of names) ≡ bindings_in root.now) }
    ensures firsts { IfOk result (λ names. AreFirst (bindings_of names)) }
    ensures references { IfOk result (λ names. listed names ≡ references_in root.now) }
    ensures resolved { IfOk result (λ names. map resolved_of (references_of names) ≡ resolved_in root.now) }
{
    if may_merge(root) {
        let names = resolve_merged(alloc, root)?;
        return Ok(names);
    }
    let names = resolve_lexically(alloc, root)?;
    Ok(names)
}
