//! What names refer to, found with a map for each scope. The maps are searched from the innermost scope on.

use crate::bound_names::{Name, is_scope, names_bound};
use nix_scopes::{Binding, Reference, is_global};
use rnix::ast::{AstNode, Inherit};
use rnix::{Direction, SyntaxKind, SyntaxNode, WalkEvent};
use std::alloc::{AllocError, Global};
use std::borrow::CowStr;
use std::collections::HashMap;

/// The bindings and references of a text, in the order in which `resolve` lists them.
#[derive(Drop)]
pub struct Found<'t> {
    pub bindings: Vec<Binding<'t>>,
    pub references: Vec<Reference<'t>>,
}

// Whether another node comes before this one in its parent.
fn is_behind_node(node: &SyntaxNode<'_>) -> bool {
    node.siblings(Direction::Prev).count() > 1
}

// Whether a node is the body of a `with`.
fn is_with_body(node: &SyntaxNode<'_>) -> bool {
    let parent = node.parent().map(|parent| parent.kind());
    parent == Some(SyntaxKind::NODE_WITH) && is_behind_node(node)
}

// Whether a node is a name that is an expression: it is neither bound, nor inherited, nor a part of an attribute path.
fn is_expression(node: &SyntaxNode<'_>) -> bool {
    let Some(parent) = node.parent() else {
        return false;
    };
    let is_value = match parent.kind() {
        SyntaxKind::NODE_ATTRPATH
        | SyntaxKind::NODE_INHERIT
        | SyntaxKind::NODE_IDENT_PARAM
        | SyntaxKind::NODE_PAT_BIND => false,
        SyntaxKind::NODE_PAT_ENTRY => is_behind_node(node),
        _ => true,
    };
    node.kind() == SyntaxKind::NODE_IDENT && is_value
}

// What is around a place: for each scope, the innermost last, the numbers of its bindings by name; and the bodies of `with`.
#[derive(Drop)]
struct Environment<'t> {
    scopes: Vec<HashMap<String, usize>>,
    with_bodies: Vec<SyntaxNode<'t>>,
}

// The number of a name: the one that it has, or else `number`, which is stored.
fn number_or(
    numbers: &mut HashMap<String, usize>,
    text: &String,
    number: usize,
) -> Result<usize, AllocError> {
    if let Some(first) = numbers.get(text) {
        return Ok(*first);
    }
    numbers.insert(text.clone()?, number)?;
    Ok(number)
}

// Binds a name in a scope, whose names so far have these numbers.
fn bind<'t>(
    name: &Name<'t>,
    scope: &SyntaxNode<'t>,
    bindings: &mut Vec<Binding<'t>>,
    numbers: &mut HashMap<String, usize>,
) -> Result<(), AllocError> {
    let first = number_or(numbers, &name.text, bindings.len())?;
    bindings.push(Binding {
        text: CowStr::Owned(name.text.clone()?),
        node: name.node.clone(),
        scope: scope.clone(),
        first,
    })?;
    Ok(())
}

// Binds the names of a scope, and returns their numbers.
fn bind_names<'t>(
    alloc: Global,
    scope: &SyntaxNode<'t>,
    bindings: &mut Vec<Binding<'t>>,
) -> Result<HashMap<String, usize>, AllocError> {
    let mut numbers = HashMap::new(alloc);
    for name in &names_bound(alloc, scope)? {
        bind(name, scope, bindings, &mut numbers)?;
    }
    Ok(numbers)
}

// The number of a name in the innermost of these scopes that binds it.
fn innermost(scopes: &[HashMap<String, usize>], text: &String) -> Option<usize> {
    for numbers in scopes.iter().rev() {
        if let Some(number) = numbers.get(text) {
            return Some(*number);
        }
    }
    None
}

impl<'t> Environment<'t> {
    // Enters a node. If it is a scope, its names are bound.
    fn enter(
        &mut self,
        alloc: Global,
        node: &SyntaxNode<'t>,
        bindings: &mut Vec<Binding<'t>>,
    ) -> Result<(), AllocError> {
        if is_scope(node) {
            let numbers = bind_names(alloc, node, bindings)?;
            self.scopes.push(numbers)?;
        }
        if is_with_body(node) {
            self.with_bodies.push(node.clone())?;
        }
        Ok(())
    }

    // Leaves a node.
    fn leave(&mut self, node: &SyntaxNode<'_>) {
        if is_scope(node) {
            let _innermost = self.scopes.pop();
        }
        if is_with_body(node) {
            let _innermost = self.with_bodies.pop();
        }
    }
}

// Adds a name with the binding that it has in the outermost `depth` scopes.
fn add_reference<'t>(
    around: &Environment<'t>,
    depth: usize,
    is_inherited: bool,
    name: Name<'t>,
    references: &mut Vec<Reference<'t>>,
) -> Result<(), AllocError> {
    let scopes = around.scopes.get(..depth).unwrap_or(&[]);
    let binding = innermost(scopes, &name.text);
    let may_be_open = !around.with_bodies.is_empty() && !is_global(name.text.as_str());
    references.push(Reference {
        text: CowStr::Owned(name.text),
        node: name.node,
        is_inherited,
        binding,
        is_open: binding.is_none() && may_be_open,
    })?;
    Ok(())
}

// Returns how many of the scopes around an `inherit` are around its `let` or set.
fn outer_depth(around: &Environment<'_>, inherit: &SyntaxNode<'_>) -> usize {
    let depth = around.scopes.len();
    match inherit.parent() {
        Some(parent) if is_scope(&parent) => depth.saturating_sub(1),
        _ => depth,
    }
}

// Adds the names that an `inherit` takes from around its `let` or set.
fn add_all_inherited<'t>(
    alloc: Global,
    around: &Environment<'t>,
    inherit: &Inherit<'t>,
    references: &mut Vec<Reference<'t>>,
) -> Result<(), AllocError> {
    if inherit.from().is_some() {
        return Ok(());
    }
    let depth = outer_depth(around, inherit.syntax());
    for attr in inherit.attrs() {
        if let Some(text) = attr.static_name(alloc)? {
            let node = attr.syntax().clone();
            add_reference(around, depth, true, Name { text, node }, references)?;
        }
    }
    Ok(())
}

// Adds the reference that a node is, or the references of an `inherit`.
fn add_references<'t>(
    alloc: Global,
    around: &Environment<'t>,
    node: SyntaxNode<'t>,
    references: &mut Vec<Reference<'t>>,
) -> Result<(), AllocError> {
    if is_expression(&node) {
        let text = String::from_str(alloc, node.text())?;
        let depth = around.scopes.len();
        return add_reference(around, depth, false, Name { text, node }, references);
    }
    match Inherit::cast(node) {
        Some(inherit) => add_all_inherited(alloc, around, &inherit, references),
        None => Ok(()),
    }
}

/// Resolves the names inside a node with a map for each scope.
pub fn resolve_by_maps<'t>(alloc: Global, root: &SyntaxNode<'t>) -> Result<Found<'t>, AllocError> {
    let mut bindings = Vec::new(alloc);
    let mut references = Vec::new(alloc);
    let mut around = Environment {
        scopes: Vec::new(alloc),
        with_bodies: Vec::new(alloc),
    };
    for event in root.preorder() {
        match event {
            WalkEvent::Enter(node) => {
                around.enter(alloc, &node, &mut bindings)?;
                add_references(alloc, &around, node, &mut references)?;
            }
            WalkEvent::Leave(node) => around.leave(&node),
        }
    }
    Ok(Found {
        bindings,
        references,
    })
}
