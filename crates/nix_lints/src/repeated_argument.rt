//! A name of a whole pattern that is one of its arguments, too, as in `a@{ a }: a`, which Nix does not allow.

ghost use Rattle.std.specs.Prelude.{◌≡◌, option_map};
ghost use Rattle.rnix_kinds.specs.declared.kinds.SyntaxKind.TheVariants as k;
ghost use Rattle.rnix_green.specs.Equality.{same_kind};
ghost use Rattle.rnix_base.specs.Select.{nodes_of};
ghost use Rattle.nix_lints.specs.Found.{found_of};
ghost use Rattle.nix_lints.specs.RepeatedArgument.{name_of, is_written, first_named, argument_named, repeated_argument};

use crate::finding::{Finding, Reason};
use nix_diagnostics::Code;
use rnix::SyntaxNode;
use rnix::ast::{AstNode, Ident, Pattern};
use rnix_base::first_child;

// Returns the identifier right below a node.
fn name_of<'t>(node: &SyntaxNode<'t>) -> Option<SyntaxNode<'t>>
    ensures { result ≡ name_of node.now }
{
    Some(first_child::<Ident<'t>>(node)?.syntax().clone())
}

// Returns whether a node is given and is written like a text.
fn is_written(node: &Option<SyntaxNode<'_>>, text: &str) -> bool
    ensures { result ≡ is_written text.now node.now }
{
    match node {
        Some(node) => node.text() == text,
        None => false,
    }
}

// Returns the first name of the entries of a pattern that is written like a text.
fn first_named<'t>(pattern: &Pattern<'t>, text: &str) -> Option<SyntaxNode<'t>>
    ensures { result ≡ first_named text.now (nodes_of (same_kind k.NODE_PAT_ENTRY) pattern.now) }
{
    for entry in pattern.pat_entries() {
        let name = name_of(entry.syntax());
        if is_written(&name, text) {
            return name;
        }
    }
    None
}

// Returns the argument of the pattern around its name that has the same name.
fn argument_named<'t>(bind: &SyntaxNode<'t>) -> Option<SyntaxNode<'t>>
    ensures { result ≡ argument_named bind.now }
{
    let pattern = Pattern::cast(bind.parent()?)?;
    let name = name_of(bind)?;
    first_named(&pattern, name.text())
}

/// Returns the finding on the name of a whole pattern, if one of its arguments has the same name.
pub fn repeated_argument(bind: &SyntaxNode<'_>) -> Option<Finding>
    ensures { option_map found_of result ≡ repeated_argument bind.now }
{
    let argument = argument_named(bind)?;
    Some(Finding {
        code: Code::RepeatedArgument,
        range: bind.text_range(),
        reason: Reason::Place(argument.text_range()),
        replacement: None,
    })
}
