//! Each public name by the path that a user writes.

use rnix::ast::AstNode;
use std::alloc::{AllocError, Global};
use std::test::Fail;

// Returns 1 if a child of the root has a kind of the set, and otherwise 0.
fn kinds_below(root: &rnix::Root<'_>, set: rnix::TokenSet) -> usize {
    let mut found = 0;
    let children: rnix::SyntaxElementChildren<'_> = root.syntax().children_with_tokens();
    for element in children {
        let kind: rnix::SyntaxKind = match element {
            rnix::NodeOrToken::Node(node) => node.kind(),
            rnix::NodeOrToken::Token(token) => token.kind(),
        };
        if set.contains(kind) {
            found = 1usize.max(found);
        }
    }
    found
}

#[test]
fn a_text_is_cut(rt: HostRuntime) -> Result<(), Fail> {
    let alloc = rt.alloc();
    let mut tokens: rnix::Tokenizer<'_> = rnix::tokenize(alloc, "a");
    if let Some(token) = tokens.next() {
        let (kind, text): rnix::Token<'_> = token?;
        assert!(rt; kind == rnix::SyntaxKind::TOKEN_IDENT && text == "a");
    }
    assert!(rt; rnix::Tokenizer::new(alloc, "").next().is_none());
    Ok(())
}

#[test]
fn a_text_is_read(rt: HostRuntime) -> Result<(), Fail> {
    let read: rnix::Parse = rnix::Root::parse(rt.alloc(), "a ")?;
    let errors: &[rnix::ParseError] = read.errors();
    assert!(rt; errors.is_empty());
    let blank = rnix::TokenSet::new(rnix::SyntaxKind::TOKEN_WHITESPACE);
    assert_eq!(rt; kinds_below(&read.tree(), blank), 1);
    Ok(())
}

// A literal of one number.
fn literal(alloc: Global) -> Result<rnix::GreenNode, AllocError> {
    let mut builder: rnix::GreenNodeBuilder = rnix::GreenNodeBuilder::new(alloc);
    let at: rnix::Checkpoint = builder.checkpoint();
    builder.token(rnix::SyntaxKind::TOKEN_INTEGER, "12")?;
    builder.start_node_at(at, rnix::SyntaxKind::NODE_LITERAL)?;
    builder.finish_node()?;
    builder.finish()
}

#[test]
fn a_tree_is_built_and_walked(rt: HostRuntime) -> Result<(), Fail> {
    let tree: rnix::GreenNode = literal(rt.alloc())?;
    let root: rnix::SyntaxNode<'_> = rnix::SyntaxNode::new_root(&tree);
    let range: rnix::TextRange = root.text_range();
    let end: rnix::TextSize = range.end();
    assert_eq!(rt; end, 2);
    let walk: rnix::PreorderWithTokens<'_> = root.preorder_with_tokens();
    for event in walk {
        let element: rnix::SyntaxElement<'_> = match event {
            rnix::WalkEvent::Enter(element) => element,
            rnix::WalkEvent::Leave(element) => element,
        };
        if let rnix::NodeOrToken::Token(token) = element {
            let token: rnix::SyntaxToken<'_> = token;
            assert_eq!(rt; token.text(), "12");
        }
    }
    Ok(())
}

#[test]
fn what_is_no_kind_is_refused(rt: HostRuntime) {
    let refusal: Option<rnix::ParseSyntaxKindError> = "x".parse::<rnix::SyntaxKind>().err();
    assert!(rt; refusal.is_some());
}
