//! Unexpected tokens and what is around them.

use crate::brackets::Matching;
use crate::error_nodes::token_before;
use SyntaxKind::*;
use rnix::ast::{AstNode, AttrpathValue};
use rnix::{ParseError, SyntaxKind, SyntaxNode, SyntaxToken};

/// An unexpected token.
#[derive(Drop)]
pub struct UnexpectedToken<'t> {
    /// The token.
    pub token: SyntaxToken<'t>,
    /// The previous token other than trivia.
    pub before: Option<SyntaxToken<'t>>,
    /// The node around its error node.
    pub parent: SyntaxNode<'t>,
    /// The first kind that is expected in its place, if any.
    pub expected: Option<SyntaxKind>,
    /// Whether it is in braces that are followed by `:` or `@`, which shows that they are those of a pattern.
    pub is_in_pattern: bool,
}

impl<'t> UnexpectedToken<'t> {
    /// Returns the unexpected token of an error: the first of its error node.
    pub fn of(
        error: &ParseError,
        node: Option<SyntaxNode<'t>>,
        matching: &Matching,
    ) -> Option<UnexpectedToken<'t>> {
        let expected = match error {
            ParseError::UnexpectedWanted(_, _, expected) => expected.first().copied(),
            _ => None,
        };
        let node = node?;
        let token = node.first_token()?;
        let parent = node.parent()?;
        Some(UnexpectedToken {
            before: token_before(&token),
            is_in_pattern: is_in_pattern(&parent, matching),
            parent,
            token,
            expected,
        })
    }

    /// Returns the kind of the previous token other than trivia.
    pub fn kind_before(&self) -> Option<SyntaxKind> {
        self.before.as_ref().map(|token| token.kind())
    }

    /// Returns the kind of the next token, trivia included.
    pub fn kind_after(&self) -> Option<SyntaxKind> {
        self.token.next_token().map(|token| token.kind())
    }

    /// Returns whether an expression is expected.
    pub fn expects_expression(&self) -> bool {
        self.expected == Some(TOKEN_L_PAREN)
    }

    /// Returns whether a name is expected.
    pub fn expects_name(&self) -> bool {
        self.expected == Some(TOKEN_IDENT)
    }

    /// Returns the outermost call at the end of the value of an entry, if the value ends before this token.
    pub fn call_in_value(&self) -> Option<SyntaxNode<'t>> {
        let value = AttrpathValue::cast(self.parent.clone())?.value()?;
        call_before(self.before.as_ref()?, value.syntax())
    }

    /// Returns the end of the value before this token. If the token is `=`, the last argument of a call before it may be the name of the next entry. It is
    /// if it is on another line than the function, or if the function is a literal, a string or a list; the value then ends before it. Returns `None`
    /// otherwise.
    pub fn end_of_value(&self) -> Option<usize> {
        if self.token.kind() != TOKEN_ASSIGN {
            return Some(self.before.as_ref()?.text_range().end());
        }
        let call = self.call_in_value()?;
        let function = call.first_child()?;
        let (end, argument) = (
            function.text_range().end(),
            call.last_child()?.text_range().start(),
        );
        let start = self.parent.text_range().start();
        let between = self
            .parent
            .text()
            .get(end.saturating_sub(start)..argument.saturating_sub(start));
        let is_independent = between.is_some_and(|text| text.contains('\n'));
        (is_independent || is_data(function.kind())).then_some(end)
    }
}

// Returns whether a node of a kind is never a function.
fn is_data(kind: SyntaxKind) -> bool {
    matches!(kind, NODE_LITERAL | NODE_STRING | NODE_LIST)
}

// Returns the outermost call in a value that ends with a token.
fn call_before<'t>(token: &SyntaxToken<'t>, value: &SyntaxNode<'t>) -> Option<SyntaxNode<'t>> {
    let end = token.text_range().end();
    let mut call = None;
    for node in token.parent_ancestors() {
        if !value.text_range().contains_range(node.text_range()) {
            break;
        }
        if node.kind() == NODE_APPLY && node.text_range().end() == end {
            call = Some(node);
        }
    }
    call
}

// Returns whether a node is in a pattern, or in braces that were parsed as a set but are those of a pattern.
fn is_in_pattern(node: &SyntaxNode<'_>, matching: &Matching) -> bool {
    for node in node.ancestors() {
        match node.kind() {
            NODE_PATTERN => return true,
            NODE_ATTR_SET => {
                return node
                    .first_token()
                    .is_some_and(|brace| matching.is_pattern(brace.text_range().start()));
            }
            NODE_ATTRPATH_VALUE | NODE_ATTRPATH => {}
            _ => return false,
        }
    }
    false
}
