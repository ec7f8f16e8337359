//! The kinds of nodes that are one piece, and those that have groups of their own.

use rnix::SyntaxKind;

/// Returns whether nodes of a kind are written as they are: names, strings and paths.
pub fn is_atom(kind: SyntaxKind) -> bool {
    matches!(
        kind,
        SyntaxKind::NODE_IDENT
            | SyntaxKind::NODE_STRING
            | SyntaxKind::NODE_PATH_ABS
            | SyntaxKind::NODE_PATH_HOME
            | SyntaxKind::NODE_PATH_REL
            | SyntaxKind::NODE_PATH_SEARCH
    )
}

/// Returns whether nodes of a kind always have groups of their own.
pub fn is_grouped(kind: SyntaxKind) -> bool {
    matches!(
        kind,
        SyntaxKind::NODE_ROOT
            | SyntaxKind::NODE_LIST
            | SyntaxKind::NODE_ATTR_SET
            | SyntaxKind::NODE_PAREN
            | SyntaxKind::NODE_LET_IN
            | SyntaxKind::NODE_LEGACY_LET
            | SyntaxKind::NODE_INHERIT
            | SyntaxKind::NODE_ATTRPATH_VALUE
            | SyntaxKind::NODE_WITH
            | SyntaxKind::NODE_ASSERT
            | SyntaxKind::NODE_LAMBDA
            | SyntaxKind::NODE_PATTERN
    )
}
