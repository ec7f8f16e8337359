//! Loops that follow a chain of calls, each on the result of the one before.

use rnix::ast::{AstNode, AstToken, AttrSet, AttrpathValue, Comment, Expr, HasEntry, Whitespace};
use rnix::{NodeOrToken, Root, SyntaxKind, SyntaxNode, SyntaxToken};
use std::alloc::{AllocError, Global};
use std::test::Fail;

// Returns the set in the body of lambdas, lets, `with`, `assert` and parentheses.
#[tactic(auto, using(rnix::proofs::ChainLemmas::child_falls))]
fn set_within<'t>(root: &Root<'t>) -> Option<AttrSet<'t>> {
    let mut next = root.expr();
    while let Some(expr) = next {
        next = match expr {
            Expr::Lambda(lambda) => lambda.body(),
            Expr::LetIn(binding) => binding.body(),
            Expr::With(with) => with.body(),
            Expr::Assert(assertion) => assertion.body(),
            Expr::Paren(paren) => paren.expr(),
            Expr::AttrSet(set) => return Some(set),
            _ => None,
        };
    }
    None
}

// Returns the comments directly before a node, in the order of the text. A blank line ends them.
#[tactic(auto, using(rnix::proofs::ChainLemmas::prev_falls))]
fn comments_before<'t>(
    alloc: Global,
    node: &SyntaxNode<'t>,
) -> Result<Vec<Comment<'t>>, AllocError> {
    let mut comments = Vec::new(alloc);
    let mut next = node.prev_sibling_or_token();
    while let Some(NodeOrToken::Token(token)) = next {
        next = token.prev_sibling_or_token();
        if let Some(comment) = Comment::cast(token.clone()) {
            comments.push(comment)?;
        } else if let Some(space) = Whitespace::cast(token) {
            if space.syntax().text().matches('\n').count() > 1 {
                break;
            }
        } else {
            break;
        }
    }
    comments.reverse();
    Ok(comments)
}

// Returns the number of parameters of the function that is an attribute's value.
#[tactic(auto, using(rnix::proofs::ChainLemmas::child_falls))]
fn parameter_count(entry: &AttrpathValue<'_>) -> usize {
    let mut count: usize = 0;
    let mut value = entry.value();
    while let Some(Expr::Lambda(lambda)) = value {
        count = count.saturating_add(usize::from(lambda.param().is_some()));
        value = lambda.body();
    }
    count
}

// Returns the number of siblings after the node, tokens included.
#[tactic(auto, using(rnix::proofs::ChainLemmas::next_falls))]
fn elements_behind(node: &SyntaxNode<'_>) -> usize {
    let mut count: usize = 0;
    let mut next = node.next_sibling_or_token();
    while let Some(element) = next {
        count = count.saturating_add(1);
        next = element.next_sibling_or_token();
    }
    count
}

// Returns the number of sibling nodes after the node.
#[tactic(auto, using(rnix::proofs::ChainLemmas::next_node_falls))]
fn nodes_behind(node: &SyntaxNode<'_>) -> usize {
    let mut count: usize = 0;
    let mut next = node.next_sibling();
    while let Some(node) = next {
        count = count.saturating_add(1);
        next = node.next_sibling();
    }
    count
}

// Returns the number of tokens of the tree before the token.
#[tactic(auto, using(rnix::proofs::ChainLemmas::prev_token_falls))]
fn tokens_before(token: &SyntaxToken<'_>) -> usize {
    let mut count: usize = 0;
    let mut next = token.prev_token();
    while let Some(token) = next {
        count = count.saturating_add(1);
        next = token.prev_token();
    }
    count
}

// Returns the number of sets that contain the node.
#[tactic(auto, using(rnix::proofs::ChainLemmas::parent_falls))]
fn sets_around(node: &SyntaxNode<'_>) -> usize {
    let mut count: usize = 0;
    let mut next = node.parent();
    while let Some(node) = next {
        count = count.saturating_add(usize::from(node.kind() == SyntaxKind::NODE_ATTR_SET));
        next = node.parent();
    }
    count
}

// Returns the length of the chain of nodes inside the node in which each is its parent's last element.
#[tactic(auto, using(rnix::proofs::ChainLemmas::last_child_falls))]
fn last_in_last(node: &SyntaxNode<'_>) -> usize {
    let mut count: usize = 0;
    let mut next = node.last_child_or_token();
    while let Some(NodeOrToken::Node(node)) = next {
        count = count.saturating_add(1);
        next = node.last_child_or_token();
    }
    count
}

// Returns the numbers of comments before the first entry, of its parameters, and of elements and nodes after it.
fn about_first(
    alloc: Global,
    root: &Root<'_>,
) -> Result<Option<(usize, usize, usize, usize)>, AllocError> {
    let Some(set) = set_within(root) else {
        return Ok(None);
    };
    let Some(first) = set.attrpath_values().next() else {
        return Ok(None);
    };
    let node = first.syntax();
    let comments = comments_before(alloc, node)?.len();
    Ok(Some((
        comments,
        parameter_count(&first),
        elements_behind(node),
        nodes_behind(node),
    )))
}

// Returns the number of tokens before the last one.
fn before_last(root: &SyntaxNode<'_>) -> Option<usize> {
    let last = root.last_token()?;
    Some(tokens_before(&last))
}

#[test]
fn chains_go_along_siblings_and_bodies(rt: HostRuntime) -> Result<(), Fail> {
    let text = "{ lib }: let a = 1; in ({\n# old\n\n# one\n# two\nf = x: { a, b }: y: a; g = 2; })";
    let read = Root::parse(rt.alloc(), text)?;
    let found = about_first(rt.alloc(), &read.tree())?;
    assert_eq!(rt; found, Some((2, 3, 4, 1)));
    Ok(())
}

#[test]
fn chains_go_outwards_and_inwards(rt: HostRuntime) -> Result<(), Fail> {
    let read = Root::parse(rt.alloc(), "{ a = { b = 1; }; }")?;
    let root = read.syntax();
    assert_eq!(rt; last_in_last(&root), 1);
    assert_eq!(rt; before_last(&root), Some(18));
    for node in root.descendants() {
        if node.kind() == SyntaxKind::NODE_LITERAL {
            assert_eq!(rt; sets_around(&node), 2);
        }
    }
    Ok(())
}
