//! The name of an attribute, as Nix reads it.

ghost use Rattle.std.specs.Prelude.{◌≡◌, if◌then◌else◌, None, option_map, IfOk, string_bytes};
ghost use Rattle.rnix_green.specs.Tree.{item_of};
ghost use Rattle.rnix_base.specs.Parts.{is_indented};
ghost use Rattle.rnix_base.specs.Select.{child_of};
ghost use Rattle.rnix.specs.NodeKinds.{is_expr};
ghost use Rattle.rnix.specs.StringParts.{string_parts, plain_value};
ghost use Rattle.rnix.specs.AttrName.{state_behind, is_run, is_lone, is_one_piece, constant_string, constant_by};
ghost use Rattle.rnix.specs.AttrName.{constant_of, static_name};
ghost use Rattle.rnix.specs.Sums.{attr_node};

use crate::ast::attributes::Attr;
use crate::ast::names::Dynamic;
use crate::ast::parentheses::without_parens;
use crate::ast::string_parts::InterpolPart;
use crate::ast::strings::Str;
use rnix_base::{AstNode, AstToken, first_token, is_indented};
use rnix_kinds::SyntaxKind;
use rnix_tree::SyntaxNode;
use std::alloc::{AllocError, Global};

// Returns the state of Nix's tokenizer after one more byte of a text in `''`: at 0 its token may continue, at 1 it has ended.
fn state_behind(state: u8, byte: u8) -> u8
    ensures { result ≡ state_behind state byte }
{
    let (is_dollar, is_quote) = (byte == b'$', byte == b'\'');
    if state == 0 {
        if is_dollar || is_quote { byte } else { 0 }
    } else if state == b'$' {
        if byte == b'{' || is_quote { 1 } else { 0 }
    } else if state == b'\'' {
        if is_quote || is_dollar { 1 } else { 0 }
    } else {
        1
    }
}

// Returns whether a text in `''` is one token to which more text could be added.
fn is_run(text: &str) -> bool
    ensures { result ≡ is_run text.now }
{
    let mut state = 0;
    for byte in text.as_bytes() {
        state = state_behind(state, *byte);
    }
    state == 0
}

// Returns whether a text in `''` is one of the other tokens: a `$`, or an escape.
fn is_lone(text: &str) -> bool
    ensures { result ≡ is_lone text.now }
{
    text == "$"
        || text == "'''"
        || text == "''$"
        || (text.len() == 4 && text.as_bytes().starts_with(b"''\\"))
}

// Returns whether Nix reads the content of a string in `''` as one piece.
fn is_one_piece(string: &Str<'_>) -> bool
    ensures { result ≡ is_one_piece (string_parts string.now) }
{
    let mut parts = string.parts();
    match (parts.next(), parts.next()) {
        (None, _) => true,
        (Some(InterpolPart::Literal(token)), None) => {
            let text = token.syntax().text();
            is_run(text) || is_lone(text)
        }
        _ => false,
    }
}

// Returns the value of a string that Nix knows without evaluation.
fn constant_string(alloc: Global, string: &Str<'_>) -> Result<Option<String>, AllocError>
    ensures { IfOk result (λ value. option_map string_bytes value ≡ constant_string string.now) }
{
    if is_indented(string.syntax()) && !is_one_piece(string) {
        return Ok(None);
    }
    string.plain_value(alloc)
}

// Returns the value of an expression that Nix knows without evaluation: of such a string, and of a URI.
fn constant(alloc: Global, node: &SyntaxNode<'_>) -> Result<Option<String>, AllocError>
    ensures { IfOk result (λ value. option_map string_bytes value ≡ constant_by (item_of node.now).kind node.now) }
{
    match node.kind() {
        SyntaxKind::NODE_STRING => constant_string(alloc, &Str::new(node.clone())),
        SyntaxKind::NODE_LITERAL => match first_token(node, SyntaxKind::TOKEN_URI) {
            Some(token) => Ok(Some(String::from_str(alloc, token.text())?)),
            None => Ok(None),
        },
        _ => Ok(None),
    }
}

// Returns that value of the expression in `${` and `}`, perhaps in parentheses, if there is one.
fn constant_of(alloc: Global, dynamic: &Dynamic<'_>) -> Result<Option<String>, AllocError>
    ensures { IfOk result (λ value. option_map string_bytes value ≡ constant_of (child_of is_expr 0 dynamic.now)) }
{
    match dynamic.expr() {
        Some(expr) => constant(alloc, &without_parens(expr.syntax())),
        None => Ok(None),
    }
}

// Returns the name of a string as an attribute: its value, or `None` for a string in `''`.
fn string_name(alloc: Global, string: &Str<'_>) -> Result<Option<String>, AllocError>
    ensures { IfOk result (λ name. option_map string_bytes name ≡ (if is_indented string.now then None else plain_value string.now)) }
{
    if is_indented(string.syntax()) {
        return Ok(None);
    }
    string.plain_value(alloc)
}

// Returns the name of the attribute of a node.
fn name_of(alloc: Global, node: &SyntaxNode<'_>) -> Result<Option<String>, AllocError>
    ensures { IfOk result (λ name. option_map string_bytes name ≡ static_name node.now) }
{
    match node.kind() {
        SyntaxKind::NODE_IDENT => Ok(Some(String::from_str(alloc, node.text())?)),
        SyntaxKind::NODE_STRING => string_name(alloc, &Str::new(node.clone())),
        SyntaxKind::NODE_DYNAMIC => constant_of(alloc, &Dynamic::new(node.clone())),
        _ => Ok(None),
    }
}

impl<'t> Attr<'t> {
    /// Returns the attribute's name as Nix 2.8 reads it, if the text alone determines it: `a`, `"a"`, `${"a"}` and `${("a")}` all have the name `a`. Returns
    /// `None` for a name that must be evaluated, and for a string in `''`, which Nix refuses as a name.
    pub fn static_name(&self, alloc: Global) -> Result<Option<String>, AllocError>
        ensures { IfOk result (λ name. option_map string_bytes name ≡ static_name (attr_node self.now)) }
    {
        name_of(alloc, self.syntax())
    }
}
