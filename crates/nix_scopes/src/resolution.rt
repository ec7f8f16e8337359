//! The bindings of a text, and what its names refer to.

ghost use Rattle.std.specs.Prelude.{◌≡◌, option_map};
ghost use Rattle.nix_scopes.specs.Bound.{bindings_of, references_of};
ghost use Rattle.rnix_green.specs.Range.{bounds_of};
ghost use Rattle.rnix_green.specs.Tree.{extent_of};
ghost use Rattle.nix_scopes.specs.Occurrences.{is_at, binding_at, number_at, written_number, referred_number};

use rnix::{SyntaxNode, TextRange};
use std::borrow::CowStr;

/// A name that a scope binds: a `let`, a `rec` set or a lambda.
#[derive(Drop)]
pub struct Binding<'t> {
    /// The name as Nix reads it: without quotes and `${}`, and with escapes replaced.
    pub text: CowStr<'t>,
    /// The node of the name: an identifier, a string or a `${}`.
    pub node: SyntaxNode<'t>,
    /// The node in which the name is in scope.
    pub scope: SyntaxNode<'t>,
    /// The number of the binding to which references refer: its own, except where a set is written in parts, as in `a.b = 1; a.c = 2;`; then the first part's.
    pub first: usize,
}

/// A name whose value is used, or that an `inherit` takes from around its set or `let`.
#[derive(Drop)]
pub struct Reference<'t> {
    /// The name as Nix reads it: without quotes and `${}`, and with escapes replaced.
    pub text: CowStr<'t>,
    /// The node of the name: an identifier, a string or a `${}`.
    pub node: SyntaxNode<'t>,
    /// Whether it is inherited.
    pub is_inherited: bool,
    /// The number of its binding, in the innermost scope around it that binds the name.
    pub binding: Option<usize>,
    /// Whether it has no binding and is in the body of a `with`, which may bind the name: Nix itself does not. A name without a binding that is not open
    /// comes from outside the text.
    pub is_open: bool,
}

/// The bindings of a text in the order of their scopes, and its references in the order of the text.
#[derive(Drop)]
pub struct Resolution<'t> {
    pub(crate) bindings: Vec<Binding<'t>>,
    pub(crate) references: Vec<Reference<'t>>,
}

impl<'t> Resolution<'t> {
    /// Returns the bindings. The number of a binding is its index here.
    pub fn bindings(&self) -> &[Binding<'t>]
        ensures { result.now ≡ bindings_of self.now }
    {
        &self.bindings
    }

    /// Returns the references, also those to names that nothing in the text binds.
    pub fn references(&self) -> &[Reference<'t>]
        ensures { result.now ≡ references_of self.now }
    {
        &self.references
    }

    /// Returns the binding that a node makes or refers to, or its first part if it has several. A name of an `inherit` does both; for it, returns the binding
    /// that it makes.
    pub fn binding_at(&self, node: &SyntaxNode<'_>) -> Option<&Binding<'t>>
        ensures { option_map (λ binding. binding.now) result ≡ binding_at self.now (extent_of node.now) }
    {
        self.bindings.get(self.number_at(node)?)
    }

    // Returns the number of the binding that a node makes or refers to.
    fn number_at(&self, node: &SyntaxNode<'_>) -> Option<usize>
        ensures { result ≡ number_at self.now (extent_of node.now) }
    {
        match written_number(&self.bindings, node.text_range()) {
            Some(number) => Some(number),
            None => referred_number(&self.references, node.text_range()),
        }
    }
}

// Returns whether a node is at a range.
fn is_at(node: &SyntaxNode<'_>, extent: TextRange) -> bool
    ensures { result ≡ is_at (bounds_of extent) node.now }
{
    let range = node.text_range();
    range.start() == extent.start() && range.end() == extent.end()
}

// Returns the number of the binding that is written at a range.
fn written_number(bindings: &[Binding<'_>], extent: TextRange) -> Option<usize>
    ensures { result ≡ written_number (bounds_of extent) bindings.now }
{
    for binding in bindings {
        if is_at(&binding.node, extent) {
            return Some(binding.first);
        }
    }
    None
}

// Returns the number of the binding to which the reference at a range refers.
fn referred_number(references: &[Reference<'_>], extent: TextRange) -> Option<usize>
    ensures { result ≡ referred_number (bounds_of extent) references.now }
{
    for reference in references {
        if is_at(&reference.node, extent) {
            return reference.binding;
        }
    }
    None
}
