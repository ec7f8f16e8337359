//! New values.

ghost use Rattle.std.specs.Prelude.{◌≡◌, ◌++◌, string_bytes, IfOk, IfSome, IfNone, OnOk};
ghost use Rattle.rnix_base.specs.Quoted.{nix_string, IsQuoted};
ghost use Rattle.nix_update.specs.Words.{item_text, IsListOf};
ghost use Rattle.nix_update.specs.NewValue.{IsExpression, IsNoExpression, IsValueOf, IsNoValue};

use rnix::ast::AstNode;
use rnix::{Root, SyntaxKind};
use rnix_base::push_quoted;
use std::alloc::{AllocError, Global};

/// The form in which a new value is given.
#[derive(Clone, Copy, PartialEq, Eq)]
pub enum Form {
    /// The text as a string.
    Text,
    /// A list of the words of the text, which white space separates, as strings.
    List,
    /// The text as an expression.
    Raw,
}

/// A value as Nix text, and the kind of its node.
#[derive(Drop)]
pub struct Value {
    pub kind: SyntaxKind,
    pub text: String,
}

// Returns a value as a string.
fn quoted(alloc: Global, value: &str) -> Result<String, AllocError>
    ensures text { IfOk result (λ text. string_bytes text ≡ nix_string value.now) }
    ensures is_string { IfOk result (λ text. IsQuoted value.now (string_bytes text)) }
{
    let mut text = String::new(alloc);
    push_quoted(value, &mut text)?;
    Ok(text)
}

// Adds a word to a list, as a string.
fn add_word(word: &str, list: &mut String) -> Result<(), AllocError>
    ensures { OnOk result (string_bytes list.new ≡ string_bytes list.old ++ item_text word.now) }
{
    push_quoted(word, list)?;
    list.push(' ')?;
    Ok(())
}

// Returns the list of the words of a text, each as a string.
fn list(alloc: Global, text: &str) -> Result<String, AllocError>
    ensures { IfOk result (λ list. IsListOf text.now (string_bytes list)) }
{
    let mut list = String::from_str(alloc, "[ ")?;
    for word in text.split_whitespace() {
        add_word(word, &mut list)?;
    }
    list.push(']')?;
    Ok(list)
}

// Returns the expression of a text, without the white space and the comments around it, or `None` if the text is not an expression.
fn expression(alloc: Global, text: &str) -> Result<Option<Value>, AllocError>
    ensures some { IfOk result (λ value. IfSome value (λ value. IsExpression text.now value.kind (string_bytes value.text))) }
    ensures none { IfOk result (λ value. IfNone value (IsNoExpression text.now)) }
{
    let read = Root::parse(alloc, text)?;
    if !read.errors().is_empty() {
        return Ok(None);
    }
    match read.tree().expr() {
        Some(expr) => Ok(Some(Value {
            kind: expr.syntax().kind(),
            text: String::from_str(alloc, expr.syntax().text())?,
        })),
        None => Ok(None),
    }
}

/// Returns the value of a text in a form, or `None` if the form is `Raw` and the text is not an expression.
pub fn value_of(alloc: Global, form: Form, text: &str) -> Result<Option<Value>, AllocError>
    ensures some { IfOk result (λ value. IfSome value (λ value. IsValueOf form text.now value.kind (string_bytes value.text))) }
    ensures none { IfOk result (λ value. IfNone value (IsNoValue form text.now)) }
{
    match form {
        Form::Text => Ok(Some(Value {
            kind: SyntaxKind::NODE_STRING,
            text: quoted(alloc, text)?,
        })),
        Form::List => Ok(Some(Value {
            kind: SyntaxKind::NODE_LIST,
            text: list(alloc, text)?,
        })),
        Form::Raw => expression(alloc, text),
    }
}
