//! The kinds of leaves.

ghost use Rattle.std.specs.Prelude.{◌≡◌};
ghost use Rattle.rnix_grammar.specs.AnnotatedForest.{leaf_kind_as};

use rnix_kinds::SyntaxKind;

/// Returns the kind of a token's leaf below a node: `or` as a name is a TOKEN_IDENT, and `__curPos` as an expression is a TOKEN_CUR_POS.
#[inline(always)]
pub(crate) fn leaf_kind_as(parent: SyntaxKind, kind: SyntaxKind) -> SyntaxKind
    ensures { result ≡ leaf_kind_as parent kind }
{
    match (parent, kind) {
        (SyntaxKind::NODE_IDENT, SyntaxKind::TOKEN_OR) => SyntaxKind::TOKEN_IDENT,
        (SyntaxKind::NODE_IDENT, SyntaxKind::TOKEN_CUR_POS) => SyntaxKind::TOKEN_IDENT,
        (SyntaxKind::NODE_CUR_POS, SyntaxKind::TOKEN_IDENT) => SyntaxKind::TOKEN_CUR_POS,
        _ => kind,
    }
}
