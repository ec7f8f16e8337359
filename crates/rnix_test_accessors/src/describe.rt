//! What each accessor returns: on texts that have the parts, and on nodes that were built by hand.

use crate::description::{Describe, Description};
use rnix::ast::{
    Apply, Assert, AttrSet, Attrpath, AttrpathValue, BinOp, CurPos, Dynamic, Error, HasAttr, Ident,
    IdentParam, IfElse, Inherit, InheritFrom, Interpol, Lambda, LegacyLet, LetIn, List, Literal,
    Paren, PatBind, PatEntry, PathAbs, PathHome, PathRel, PathSearch, Pattern, Root, Select, Str,
    UnaryOp, With,
};
use rnix::{SyntaxKind, SyntaxNode};
use std::alloc::{AllocError, Global};
use std::process::Abort;
use std::test::Fail;

// Describes what the accessors of a type return of a node.
fn describe_as<'t, T: Describe<'t>>(
    alloc: Global,
    node: SyntaxNode<'t>,
) -> Result<String, AllocError> {
    let mut out = Description::new(alloc);
    match T::cast(node) {
        Some(node) => node.describe(&mut out),
        None => out.text("cast", None),
    }
    out.finish()
}

/// Describes what the accessors of a node return.
pub fn describe_node(alloc: Global, node: SyntaxNode<'_>) -> Result<String, AllocError> {
    match node.kind() {
        SyntaxKind::NODE_APPLY => describe_as::<Apply<'_>>(alloc, node),
        SyntaxKind::NODE_ASSERT => describe_as::<Assert<'_>>(alloc, node),
        SyntaxKind::NODE_ATTR_SET => describe_as::<AttrSet<'_>>(alloc, node),
        SyntaxKind::NODE_BIN_OP => describe_as::<BinOp<'_>>(alloc, node),
        SyntaxKind::NODE_CUR_POS => describe_as::<CurPos<'_>>(alloc, node),
        SyntaxKind::NODE_HAS_ATTR => describe_as::<HasAttr<'_>>(alloc, node),
        SyntaxKind::NODE_IDENT => describe_as::<Ident<'_>>(alloc, node),
        SyntaxKind::NODE_IF_ELSE => describe_as::<IfElse<'_>>(alloc, node),
        SyntaxKind::NODE_LAMBDA => describe_as::<Lambda<'_>>(alloc, node),
        SyntaxKind::NODE_LEGACY_LET => describe_as::<LegacyLet<'_>>(alloc, node),
        SyntaxKind::NODE_LET_IN => describe_as::<LetIn<'_>>(alloc, node),
        SyntaxKind::NODE_LIST => describe_as::<List<'_>>(alloc, node),
        SyntaxKind::NODE_PAREN => describe_as::<Paren<'_>>(alloc, node),
        SyntaxKind::NODE_ROOT => describe_as::<Root<'_>>(alloc, node),
        SyntaxKind::NODE_SELECT => describe_as::<Select<'_>>(alloc, node),
        SyntaxKind::NODE_UNARY_OP => describe_as::<UnaryOp<'_>>(alloc, node),
        SyntaxKind::NODE_WITH => describe_as::<With<'_>>(alloc, node),
        _ => describe_part(alloc, node),
    }
}

// Describes what the accessors return of literals, strings, paths, errors and of the parts of expressions.
fn describe_part(alloc: Global, node: SyntaxNode<'_>) -> Result<String, AllocError> {
    match node.kind() {
        SyntaxKind::NODE_ATTRPATH => describe_as::<Attrpath<'_>>(alloc, node),
        SyntaxKind::NODE_ATTRPATH_VALUE => describe_as::<AttrpathValue<'_>>(alloc, node),
        SyntaxKind::NODE_DYNAMIC => describe_as::<Dynamic<'_>>(alloc, node),
        SyntaxKind::NODE_ERROR => describe_as::<Error<'_>>(alloc, node),
        SyntaxKind::NODE_IDENT_PARAM => describe_as::<IdentParam<'_>>(alloc, node),
        SyntaxKind::NODE_INHERIT => describe_as::<Inherit<'_>>(alloc, node),
        SyntaxKind::NODE_INHERIT_FROM => describe_as::<InheritFrom<'_>>(alloc, node),
        SyntaxKind::NODE_INTERPOL => describe_as::<Interpol<'_>>(alloc, node),
        SyntaxKind::NODE_LITERAL => describe_as::<Literal<'_>>(alloc, node),
        SyntaxKind::NODE_PAT_BIND => describe_as::<PatBind<'_>>(alloc, node),
        SyntaxKind::NODE_PAT_ENTRY => describe_as::<PatEntry<'_>>(alloc, node),
        SyntaxKind::NODE_PATTERN => describe_as::<Pattern<'_>>(alloc, node),
        SyntaxKind::NODE_PATH_ABS => describe_as::<PathAbs<'_>>(alloc, node),
        SyntaxKind::NODE_PATH_HOME => describe_as::<PathHome<'_>>(alloc, node),
        SyntaxKind::NODE_PATH_REL => describe_as::<PathRel<'_>>(alloc, node),
        SyntaxKind::NODE_PATH_SEARCH => describe_as::<PathSearch<'_>>(alloc, node),
        SyntaxKind::NODE_STRING => describe_as::<Str<'_>>(alloc, node),
        _ => String::from_str(alloc, "no type of nodes"),
    }
}

// Describes what the accessors of the first node of a kind in a text return.
fn describe_first(alloc: Global, kind: SyntaxKind, text: &str) -> Result<String, AllocError> {
    let read = Root::parse(alloc, text)?;
    for node in read.syntax().descendants() {
        if node.kind() == kind {
            return describe_node(alloc, node);
        }
    }
    String::from_str(alloc, "no such node")
}

/// Asserts what the accessors of the first node of a kind in a text return, row by row.
pub fn assert_described(
    rt: &impl Abort,
    alloc: Global,
    cases: &[(SyntaxKind, &str, &str)],
) -> Result<(), Fail> {
    for (kind, text, wanted) in cases {
        assert_eq!(rt;
            describe_first(alloc, *kind, text)?.as_str(),
            *wanted,
            "in {text}"
        );
    }
    Ok(())
}
