//! In a text without errors, required parts are unwrapped without a test.

ghost use Rattle.std.specs.Prelude.{[]};
ghost use Rattle.rnix_kinds.specs.Lexical.Tokens.{tokens_of};
ghost use Rattle.rnix_grammar.specs.Parsed.{IsParsed};

use rnix::ast::{AstNode, Expr, IfElse};
use rnix::{Root, SyntaxNode, nodes_have_parts};
use std::test::Fail;

// Returns the text of an `if` in a text without errors, and the texts of its condition and its two branches.
fn branches<'t>(node: &IfElse<'t>, text: &str) -> [&'t str; 4]
    requires { IsParsed (tokens_of text.now) node.now.tree [] }
{
    nodes_have_parts(text);
    let whole: &SyntaxNode<'t> = node.syntax();
    let condition = node.condition().unwrap();
    let (body, else_body) = (node.body().unwrap(), node.else_body().unwrap());
    [
        whole.text(),
        condition.syntax().text(),
        body.syntax().text(),
        else_body.syntax().text(),
    ]
}

#[test]
fn an_if_has_three_expressions(rt: HostRuntime) -> Result<(), Fail> {
    let text = "if a then b else c";
    let read = Root::parse(rt.alloc(), text)?;
    let Ok(root) = read.ok() else {
        assert!(rt; false);
        return Ok(());
    };
    nodes_have_parts(text);
    if let Some(Expr::IfElse(node)) = root.expr() {
        assert!(rt; branches(&node, text) == [text, "a", "b", "c"]);
    } else {
        assert!(rt; false);
    }
    Ok(())
}
