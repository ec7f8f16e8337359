//! The sums of typed nodes: which kinds each of them has, and under which variant.

use rnix::ast::{AstNode, Attr, Entry, Expr, Param, Path};
use rnix::{GreenNode, GreenNodeBuilder, SyntaxKind, SyntaxNode};
use std::alloc::{AllocError, Global};
use std::test::Fail;

// Each kind, and the variants that a node of that kind is cast to.
const VARIANTS: &str = "\
    NODE_APPLY Expr::Apply\n\
    NODE_ASSERT Expr::Assert\n\
    NODE_ATTR_SET Expr::AttrSet\n\
    NODE_ATTRPATH\n\
    NODE_ATTRPATH_VALUE Entry::AttrpathValue\n\
    NODE_BIN_OP Expr::BinOp\n\
    NODE_CUR_POS Expr::CurPos\n\
    NODE_DYNAMIC Attr::Dynamic\n\
    NODE_ERROR Expr::Error\n\
    NODE_HAS_ATTR Expr::HasAttr\n\
    NODE_IDENT Expr::Ident Attr::Ident\n\
    NODE_IDENT_PARAM Param::IdentParam\n\
    NODE_IF_ELSE Expr::IfElse\n\
    NODE_INHERIT Entry::Inherit\n\
    NODE_INHERIT_FROM\n\
    NODE_INTERPOL\n\
    NODE_LAMBDA Expr::Lambda\n\
    NODE_LEGACY_LET Expr::LegacyLet\n\
    NODE_LET_IN Expr::LetIn\n\
    NODE_LIST Expr::List\n\
    NODE_LITERAL Expr::Literal\n\
    NODE_PAREN Expr::Paren\n\
    NODE_PAT_BIND\n\
    NODE_PAT_ENTRY\n\
    NODE_PATTERN Param::Pattern\n\
    NODE_PATH_ABS Expr::PathAbs Path::PathAbs\n\
    NODE_PATH_HOME Expr::PathHome Path::PathHome\n\
    NODE_PATH_REL Expr::PathRel Path::PathRel\n\
    NODE_PATH_SEARCH Expr::PathSearch Path::PathSearch\n\
    NODE_ROOT Expr::Root\n\
    NODE_SELECT Expr::Select\n\
    NODE_STRING Expr::Str Attr::Str\n\
    NODE_UNARY_OP Expr::UnaryOp\n\
    NODE_WITH Expr::With\n\
    TOKEN_IDENT";

// A sum of types of nodes.
trait Sum<'t>: AstNode<'t> {
    // The name of the variant.
    fn variant(&self) -> &'static str;
}

impl<'t> Sum<'t> for Expr<'t> {
    fn variant(&self) -> &'static str {
        match self {
            Expr::Apply(_) => "Expr::Apply",
            Expr::Assert(_) => "Expr::Assert",
            Expr::Error(_) => "Expr::Error",
            Expr::IfElse(_) => "Expr::IfElse",
            Expr::Select(_) => "Expr::Select",
            Expr::Str(_) => "Expr::Str",
            Expr::PathAbs(_) => "Expr::PathAbs",
            Expr::PathRel(_) => "Expr::PathRel",
            Expr::PathHome(_) => "Expr::PathHome",
            Expr::PathSearch(_) => "Expr::PathSearch",
            Expr::Literal(_) => "Expr::Literal",
            Expr::Lambda(_) => "Expr::Lambda",
            Expr::LegacyLet(_) => "Expr::LegacyLet",
            Expr::LetIn(_) => "Expr::LetIn",
            Expr::List(_) => "Expr::List",
            Expr::BinOp(_) => "Expr::BinOp",
            Expr::Paren(_) => "Expr::Paren",
            Expr::Root(_) => "Expr::Root",
            Expr::AttrSet(_) => "Expr::AttrSet",
            Expr::UnaryOp(_) => "Expr::UnaryOp",
            Expr::Ident(_) => "Expr::Ident",
            Expr::With(_) => "Expr::With",
            Expr::HasAttr(_) => "Expr::HasAttr",
            Expr::CurPos(_) => "Expr::CurPos",
        }
    }
}

impl<'t> Sum<'t> for Attr<'t> {
    fn variant(&self) -> &'static str {
        match self {
            Attr::Ident(_) => "Attr::Ident",
            Attr::Dynamic(_) => "Attr::Dynamic",
            Attr::Str(_) => "Attr::Str",
        }
    }
}

impl<'t> Sum<'t> for Path<'t> {
    fn variant(&self) -> &'static str {
        match self {
            Path::PathAbs(_) => "Path::PathAbs",
            Path::PathRel(_) => "Path::PathRel",
            Path::PathHome(_) => "Path::PathHome",
            Path::PathSearch(_) => "Path::PathSearch",
        }
    }
}

impl<'t> Sum<'t> for Param<'t> {
    fn variant(&self) -> &'static str {
        match self {
            Param::Pattern(_) => "Param::Pattern",
            Param::IdentParam(_) => "Param::IdentParam",
        }
    }
}

impl<'t> Sum<'t> for Entry<'t> {
    fn variant(&self) -> &'static str {
        match self {
            Entry::Inherit(_) => "Entry::Inherit",
            Entry::AttrpathValue(_) => "Entry::AttrpathValue",
        }
    }
}

// Adds the name of the variant that a node is cast to, if there is one. The cast value returns the same node.
fn add<'t, T: Sum<'t>>(said: &mut String, node: &SyntaxNode<'t>) -> Result<(), AllocError> {
    let Some(cast) = T::cast(node.clone()) else {
        return Ok(());
    };
    if !said.is_empty() {
        said.push(' ')?;
    }
    if cast.syntax() != node {
        said.push_str("another node as ")?;
    }
    said.push_str(cast.variant())
}

// Adds the variants of all sums.
fn add_all(said: &mut String, node: &SyntaxNode<'_>) -> Result<(), AllocError> {
    add::<Expr<'_>>(said, node)?;
    add::<Attr<'_>>(said, node)?;
    add::<Path<'_>>(said, node)?;
    add::<Param<'_>>(said, node)?;
    add::<Entry<'_>>(said, node)
}

// A node without children.
fn childless(alloc: Global, kind: SyntaxKind) -> Result<GreenNode, AllocError> {
    let mut builder = GreenNodeBuilder::new(alloc);
    builder.start_node(kind)?;
    builder.finish_node()?;
    builder.finish()
}

// The variants that a node without children is cast to.
fn variants(alloc: Global, kind: SyntaxKind) -> Result<String, AllocError> {
    let tree = childless(alloc, kind)?;
    let mut said = String::new(alloc);
    add_all(&mut said, &SyntaxNode::new_root(&tree))?;
    Ok(said)
}

#[test]
fn a_node_is_cast_to_the_variants_of_its_kind(rt: HostRuntime) -> Result<(), Fail> {
    for case in VARIANTS.lines() {
        let (name, wanted) = case.split_once(' ').unwrap_or((case, ""));
        let said = variants(rt.alloc(), name.parse()?)?;
        assert_eq!(rt; said.as_str(), wanted, "of {name}");
    }
    Ok(())
}
