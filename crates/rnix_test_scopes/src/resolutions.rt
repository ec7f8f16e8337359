//! What `resolve` finds in texts is what a map for each scope finds.

use crate::made_texts::made_text;
use crate::scope_maps::resolve_by_maps;
use nix_scopes::{Binding, Reference, resolve};
use rnix::{Root, SyntaxNode, SyntaxNodePtr};
use std::alloc::{AllocError, Global};
use std::test::Fail;

// Whether two nodes of a tree are the same one.
fn is_same_node(node: &SyntaxNode<'_>, other: &SyntaxNode<'_>) -> bool {
    SyntaxNodePtr::new(node) == SyntaxNodePtr::new(other)
}

fn is_same_binding(binding: &Binding<'_>, other: &Binding<'_>) -> bool {
    binding.text.as_str() == other.text.as_str()
        && is_same_node(&binding.node, &other.node)
        && is_same_node(&binding.scope, &other.scope)
        && binding.first == other.first
}

fn is_same_reference(reference: &Reference<'_>, other: &Reference<'_>) -> bool {
    reference.text.as_str() == other.text.as_str()
        && is_same_node(&reference.node, &other.node)
        && reference.is_inherited == other.is_inherited
        && reference.binding == other.binding
        && reference.is_open == other.is_open
}

fn are_same_bindings(bindings: &[Binding<'_>], others: &[Binding<'_>]) -> bool {
    for (binding, other) in bindings.iter().zip(others) {
        if !is_same_binding(binding, other) {
            return false;
        }
    }
    bindings.len() == others.len()
}

fn are_same_references(references: &[Reference<'_>], others: &[Reference<'_>]) -> bool {
    for (reference, other) in references.iter().zip(others) {
        if !is_same_reference(reference, other) {
            return false;
        }
    }
    references.len() == others.len()
}

// How many bindings and references are found inside a node, if the maps find the same.
fn found_alike(alloc: Global, root: &SyntaxNode<'_>) -> Result<Option<(usize, usize)>, AllocError> {
    let found = resolve(alloc, root)?;
    let (bindings, references) = (found.bindings(), found.references());
    let others = resolve_by_maps(alloc, root)?;
    let is_alike = are_same_bindings(bindings, &others.bindings)
        && are_same_references(references, &others.references);
    Ok(is_alike.then_some((bindings.len(), references.len())))
}

// The number of the first node inside which the maps find something else, if there is one.
fn unlike_node(alloc: Global, text: &str) -> Result<Option<usize>, AllocError> {
    let read = Root::parse(alloc, text)?;
    for (number, node) in read.syntax().descendants().enumerate() {
        if found_alike(alloc, &node)?.is_none() {
            return Ok(Some(number));
        }
    }
    Ok(None)
}

// Scopes in scopes and after each other, scopes with the same end, bodies of `with`, inherited names, names that are bound in parts or twice, and texts
// with errors.
const TEXTS: [&str; 28] = [
    "",
    "let x = 1; in let x = 2; y = x; in x + y",
    "let x = 1; in [ (let x = 2; in x) x (x: x) x ({ x }: x) x rec { x = x; } x ]",
    "rec { a = b; b = rec { a = 1; c = a; }; }",
    "x: y: { z ? x, w }@args: x + y + z + args.w",
    "{ a = x: y: let z = x; in z; b = x; }",
    "with a; with b; [ c (with d; e) f ]",
    "[ (with a; b) (with c; with d; e) f (with { g = with h; i; }; j) k ]",
    "let a = 1; in with a; { inherit a b; inherit (c) d; }",
    "a: let inherit a; b = a; in rec { inherit b; c = b; inherit \"a\" ${d}; }",
    "let { body = a; a = 1; }",
    "let a.b = 1; a.c = a; a = 2; in a",
    "rec { ${a} = b; \"c\" = d; \"${e}\" = c; c = a; }",
    "a: { inherit a; b = rec { inherit a; c = { inherit a; }; inherit b; }; inherit b; d = { }; inherit c; }",
    "b: let ${\"a\"} = b; ${(''c'')} = a; inherit ${\"b\"}; in { inherit ${(\"a\")} c; }",
    "let in",
    "[ x: y: with ]",
    "with ; a",
    "let a = ; in rec { a = ( let b = a in b",
    "with a; b: with c; { inherit a b",
    "rec { a = { b }: rec { c = b; } d; } a )",
    "{ a, b ? a, ... }@c }: with a; b c",
    "a: let \"\\a\" = 1; in a",
    "a: let \"\\a\" = a; a.b = 2; \"\\x\\y\" = xy; in { inherit \"\\x\\y\" \"\\a\" a; }",
    "let \"a\nb\" = 1; in { inherit \"a\nb\"; inherit \"a\\nb\" \"a\r\nb\" ${''\n  a\n  b''}; }",
    "a: rec { ${\"\\a\"} = 1; b = a; c = rec { inherit \"\\a\"; d = a; }; }",
    "a: let ${''\n  a''} = 1; ${('' b'')} = a; in [ a b ]",
    "a: let ''a'' = 1; ${''a$a''} = 2; \"\\a${a}\" = 3; in a",
];

#[test]
fn the_same_is_found_inside_each_node(rt: HostRuntime) -> Result<(), Fail> {
    for text in TEXTS {
        let unlike = unlike_node(rt.alloc(), text)?;
        assert!(rt; unlike.is_none(), "in {text}");
    }
    Ok(())
}

#[test]
fn bindings_and_references_are_counted(rt: HostRuntime) -> Result<(), Fail> {
    let cases = [
        ("let x = 1; in let x = 2; y = x; in x + y", (3, 3)),
        ("with a; with b; [ c (with d; e) f ]", (0, 6)),
        ("a: let inherit a; b = a; in b", (3, 3)),
    ];
    for (text, wanted) in cases {
        let read = Root::parse(rt.alloc(), text)?;
        let found = found_alike(rt.alloc(), &read.syntax())?;
        assert!(rt; found == Some(wanted), "in {text}");
    }
    Ok(())
}

#[test]
fn attributes_bind_what_they_name(rt: HostRuntime) -> Result<(), Fail> {
    let cases = [
        ("let a.b = 1; in a", Some("a")),
        ("let \"a b\" = 1; in 2", Some("a b")),
        ("let \"\" = 1; in 2", Some("")),
        ("let ${\"a\"} = 1; in a", Some("a")),
        ("let ${((\"a\"))}.b = 1; in a", Some("a")),
        ("let ${''a b''} = 1; in 2", Some("a b")),
        ("let ${http://a.b} = 1; in 2", Some("http://a.b")),
        ("rec { ${\"a\" + \"b\"} = 1; }", None),
        ("rec { ${a} = 1; }", None),
        ("rec { \"a${\"b\"}\" = 1; }", None),
        ("let \"\\a\" = 1; in 2", Some("a")),
        ("let \"\\\"\\n\\${\" = 1; in 2", Some("\"\n${")),
        ("let \"a\r\nb\" = 1; in 2", Some("a\nb")),
        ("let ${'' a''} = 1; in 2", Some("a")),
        ("let ${''a\nb''} = 1; in 2", Some("a\nb")),
        ("let ${((\"\\a\"))} = 1; in 2", Some("a")),
        ("let ''a'' = 1; in 2", None),
        ("let ${''a'''b''} = 1; in 2", None),
        ("let ${''a$b''} = 1; in 2", Some("a$b")),
        ("let ${''a$''} = 1; in 2", None),
    ];
    for (text, wanted) in cases {
        let read = Root::parse(rt.alloc(), text)?;
        let names = resolve(rt.alloc(), &read.syntax())?;
        let is_wanted = match names.bindings().first() {
            Some(binding) => wanted == Some(binding.text.as_str()),
            None => wanted.is_none(),
        };
        assert!(rt; is_wanted, "in {text}");
    }
    Ok(())
}

// The numbers are those of the bindings from which Nix takes the values.
#[test]
fn names_with_escapes_are_bound_as_in_nix(rt: HostRuntime) -> Result<(), Fail> {
    let cases = [
        ("a: let \"\\a\" = 1; in a", Some(1)),
        ("a: let \"\\\\a\" = 1; in a", Some(0)),
        ("a: let ${(''\n  a'')} = 1; in a", Some(1)),
        ("a'b: let ${''a'b''} = 1; in a'b", Some(1)),
        ("a: rec { ${\"\\a\"} = 1; b = a; }", Some(1)),
        ("a: rec { \"a${\"\"}\" = 1; b = a; }", Some(0)),
        ("let \"a\\nb\" = 1; in { inherit \"a\nb\"; }", Some(0)),
        ("a: let inherit \"\\a\"; in a", Some(1)),
    ];
    for (text, wanted) in cases {
        let read = Root::parse(rt.alloc(), text)?;
        let names = resolve(rt.alloc(), &read.syntax())?;
        let last = names.references().last().and_then(|name| name.binding);
        assert!(rt; last == wanted, "in {text}");
    }
    Ok(())
}

// How many texts are made with each count of names.
const MADE_TEXTS: u64 = 30;

#[test]
fn maps_of_each_scope_find_the_same(rt: HostRuntime) -> Result<(), Fail> {
    for seed in 0..MADE_TEXTS {
        for names in [2, 5, 16] {
            let text = made_text(rt.alloc(), seed, names)?;
            let read = Root::parse(rt.alloc(), &text)?;
            let found = found_alike(rt.alloc(), &read.syntax())?;
            assert!(rt; found.is_some(), "in {text}");
        }
    }
    Ok(())
}
