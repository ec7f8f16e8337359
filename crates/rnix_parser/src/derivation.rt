//! Derivations of the strict grammar.

ghost use Rattle.std.specs.Prelude.{◌≡◌, ◌≤◌, ◌↔◌, true, []};
ghost use Rattle.rnix_kinds.specs.declared.kinds.SyntaxKind.TheVariants.{NODE_ROOT};
ghost use Rattle.rnix_kinds.specs.Lexical.Tokens.{tokens_of};
ghost use Rattle.rnix_green.specs.Forest.{Forest};
ghost use Rattle.rnix_grammar.specs.AnnotatedForest.{placed_from};
ghost use Rattle.rnix_grammar.specs.Extensions.{has_no_extension};
ghost use Rattle.rnix_grammar.specs.Derivation.{annotate, IsDerivation};
ghost use Rattle.rnix_grammar.specs.Grammar.{IsExpression};
ghost use Rattle.rnix_grammar.specs.Layout.{items};
ghost use Rattle.rnix_grammar.specs.Nest.{nest};
ghost use Rattle.rnix_grammar.specs.PathPieces.{ArePaths};
ghost use Rattle.rnix_grammar.specs.Tables.{depth_limit};
ghost use Rattle.rnix_parser.specs.ReadingLaws.{HaveOneDerivation, OfParsed};
ghost use Rattle.rnix_parser.specs.Significant.{significant};

/// A text has at most one derivation: two strict trees of its items are equal if neither nests deeper than the limit, and each path has all the pieces
/// that touch it.
pub fn one_derivation(text: &str)
    ensures { HaveOneDerivation (items (placed_from 0 (tokens_of text.now))) }
{
    let _len = text.len();
}

/// The tree of a text, without trivia, and the derivations of the text's items. If the items have a derivation, there are no errors, and this tree is the
/// derivation. Without errors the tree nests no deeper than the limit, and is an expression of the strict grammar unless it has an accepted extension; it
/// is a derivation exactly if, in addition, the pieces of its paths touch.
pub fn tree_derivation(text: &str)
    ensures found { OfParsed text.now (λ tree faults. (d : Forest) → IsDerivation d (items (placed_from 0 (tokens_of text.now)))
        → (faults ≡ []) × (significant tree.children ≡ d)) }
    ensures nested { OfParsed text.now (λ tree faults. faults ≡ [] → nest NODE_ROOT (significant tree.children) ≤ depth_limit) }
    ensures strict { OfParsed text.now (λ tree faults. faults ≡ [] → has_no_extension NODE_ROOT (significant tree.children) ≡ true
        → IsExpression (significant tree.children)) }
    ensures exactly { OfParsed text.now (λ tree faults.
        ((faults ≡ []) × (has_no_extension NODE_ROOT (significant tree.children) ≡ true)
        × ArePaths (annotate (significant tree.children) (items (placed_from 0 (tokens_of text.now)))) [])
        ↔ IsDerivation (significant tree.children) (items (placed_from 0 (tokens_of text.now)))) }
{
    let _len = text.len();
}
