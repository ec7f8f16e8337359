//! Functions that call themselves on the children of a node.

use rnix::ast::{Expr, InterpolPart};
use rnix::{NodeOrToken, Root, SyntaxKind, SyntaxNode};
use std::test::Fail;

// Returns the greatest number of sets nested in one another.
#[tactic(auto, using(rnix::proofs::RecursionLemmas::child_nodes_fit))]
fn nested_sets(node: &SyntaxNode<'_>) -> usize {
    let mut deepest: usize = 0;
    for child in node.children() {
        deepest = deepest.max(nested_sets(&child));
    }
    let own = usize::from(node.kind() == SyntaxKind::NODE_ATTR_SET);
    deepest.saturating_add(own)
}

// Returns the number of tokens inside the node.
#[tactic(auto, using(rnix::proofs::RecursionLemmas::children_fit))]
fn tokens_within(node: &SyntaxNode<'_>) -> usize {
    let mut all: usize = 0;
    for element in node.children_with_tokens() {
        let more = match element {
            NodeOrToken::Node(child) => tokens_within(&child),
            NodeOrToken::Token(_) => 1,
        };
        all = all.saturating_add(more);
    }
    all
}

// Returns the greatest number of lists nested in one another, looking through parentheses.
#[tactic(auto, using(rnix::proofs::RecursionLemmas::child_fits, rnix::proofs::RecursionLemmas::selected_fit))]
fn nested_lists(expr: &Expr<'_>) -> usize {
    match expr {
        Expr::Paren(paren) => match paren.expr() {
            Some(inner) => nested_lists(&inner),
            None => 0,
        },
        Expr::List(list) => {
            let mut deepest: usize = 0;
            for item in list.items() {
                deepest = deepest.max(nested_lists(&item));
            }
            deepest.saturating_add(1)
        }
        _ => 0,
    }
}

// Returns the greatest number of strings nested in one another.
#[tactic(auto, using(rnix::proofs::RecursionLemmas::child_fits, rnix::proofs::RecursionLemmas::parts_fit))]
fn nested_strings(expr: &Expr<'_>) -> usize {
    let Expr::Str(string) = expr else {
        return 0;
    };
    let mut deepest: usize = 0;
    for part in string.parts() {
        if let InterpolPart::Interpolation(interpol) = part {
            if let Some(inner) = interpol.expr() {
                deepest = deepest.max(nested_strings(&inner));
            }
        }
    }
    deepest.saturating_add(1)
}

#[test]
fn sets_in_sets_are_counted(rt: HostRuntime) -> Result<(), Fail> {
    let read = Root::parse(rt.alloc(), "{ a = { b = { }; }; c = { }; }")?;
    assert_eq!(rt; nested_sets(&read.syntax()), 3);
    Ok(())
}

#[test]
fn what_is_inside_is_counted(rt: HostRuntime) -> Result<(), Fail> {
    let read = Root::parse(rt.alloc(), "1 + 2 * 3")?;
    assert_eq!(rt; read.syntax().inside_count(), 14);
    assert_eq!(rt; tokens_within(&read.syntax()), 9);
    Ok(())
}

#[test]
fn lists_in_lists_are_counted(rt: HostRuntime) -> Result<(), Fail> {
    let read = Root::parse(rt.alloc(), "[ 1 ([ 2 [ ] ]) [ ] ]")?;
    if let Some(expr) = read.tree().expr() {
        assert_eq!(rt; nested_lists(&expr), 3);
    }
    Ok(())
}

#[test]
fn strings_in_strings_are_counted(rt: HostRuntime) -> Result<(), Fail> {
    let read = Root::parse(rt.alloc(), "\"a${\"b${''c''}\"}d${e}\"")?;
    if let Some(expr) = read.tree().expr() {
        assert_eq!(rt; nested_strings(&expr), 3);
    }
    Ok(())
}
