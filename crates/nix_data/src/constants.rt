//! Whether `true`, `false` and `null` keep their meaning in a scope.

ghost use Rattle.std.specs.Prelude.{◌≡◌, true, false, is_some, IfOk};
ghost use Rattle.rnix_kinds.specs.declared.kinds.SyntaxKind.TheVariants as k;
ghost use Rattle.rnix_green.specs.Equality.{same_kind};
ghost use Rattle.rnix_base.specs.Select.{child_of};
ghost use Rattle.rnix.specs.NodeKinds.{is_param};
ghost use Rattle.nix_data.specs.Selection.{is_undefined, definitions_in, keeps_constants, has_constant, has_constant_if, pattern_has_constant, param_has_constant, binds_constant};
ghost use Rattle.nix_data.specs.Scalars.{named};
ghost use Rattle.nix_data.specs.Refusals.{Refuses};

use crate::definitions::definitions_in;
use crate::no_data::Reason;
use crate::scalars::{Stop, no_data};
use rnix::SyntaxNode;
use rnix::ast::{AstNode, Ident, Param, Pattern};
use rnix_base::first_child;
use std::alloc::Global;

// Checks that a set or a `let` does not define a name.
fn check_undefined(alloc: Global, name: &str, scope: &SyntaxNode<'_>) -> Result<(), Stop>
    ensures undefined { IfOk result (λ done. is_undefined (definitions_in name.now scope.now) ≡ true) }
    ensures refused { Refuses result (is_undefined (definitions_in name.now scope.now) ≡ false) }
{
    let found = definitions_in(alloc, name, scope)?;
    match found.first() {
        Some(definition) => Err(no_data(Reason::Redefined, definition.range)),
        None => Ok(()),
    }
}

/// Checks that `true`, `false` and `null` keep their meaning in a `let` or a set with `rec`, and that no attribute is overridden.
pub fn check_constants(alloc: Global, scope: &SyntaxNode<'_>) -> Result<(), Stop>
    ensures kept { IfOk result (λ done. keeps_constants scope.now ≡ true) }
    ensures refused { Refuses result (keeps_constants scope.now ≡ false) }
{
    check_undefined(alloc, "true", scope)?;
    check_undefined(alloc, "false", scope)?;
    check_undefined(alloc, "null", scope)?;
    check_undefined(alloc, "__overrides", scope)
}

// Returns whether a text is one of these names.
fn is_constant(text: &str) -> bool
    ensures { result ≡ is_some (named text.now) }
{
    match text {
        "null" | "true" | "false" => true,
        _ => false,
    }
}

// Returns whether the identifier in a node is one of these names.
fn has_constant(node: &SyntaxNode<'_>) -> bool
    ensures { result ≡ has_constant node.now }
{
    match first_child::<Ident<'_>>(node) {
        Some(ident) => is_constant(ident.syntax().text()),
        None => false,
    }
}

// Returns whether the name of a whole pattern is one of these.
fn bind_has_constant(pattern: &Pattern<'_>) -> bool
    ensures { result ≡ has_constant_if (child_of (same_kind k.NODE_PAT_BIND) 0 pattern.now) }
{
    match pattern.pat_bind() {
        Some(bind) => has_constant(bind.syntax()),
        None => false,
    }
}

// Returns whether a pattern binds one of these names.
fn pattern_has_constant(pattern: &Pattern<'_>) -> bool
    ensures { result ≡ pattern_has_constant pattern.now }
{
    if bind_has_constant(pattern) {
        return true;
    }
    for entry in pattern.pat_entries() {
        if has_constant(entry.syntax()) {
            return true;
        }
    }
    false
}

// Returns whether a parameter binds one of these names.
fn param_has_constant(param: &SyntaxNode<'_>) -> bool
    ensures { result ≡ param_has_constant param.now }
{
    match Pattern::cast(param.clone()) {
        Some(pattern) => pattern_has_constant(&pattern),
        None => has_constant(param),
    }
}

/// Returns whether a function binds one of these names.
pub fn binds_constant(function: &SyntaxNode<'_>) -> bool
    ensures { result ≡ binds_constant (child_of is_param 0 function.now) }
{
    match first_child::<Param<'_>>(function) {
        Some(param) => param_has_constant(param.syntax()),
        None => false,
    }
}
