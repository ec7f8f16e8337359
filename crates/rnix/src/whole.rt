//! The parts that every node of a tree without errors has.

ghost use Rattle.std.specs.Prelude.{ℕ, Bool, [], All, IfSome};
ghost use Rattle.rnix_kinds.specs.declared.kinds.SyntaxKind.{SyntaxKind};
ghost use Rattle.rnix_kinds.specs.Lexical.Tokens.{tokens_of};
ghost use Rattle.rnix_green.specs.Tree.{Located};
ghost use Rattle.rnix_grammar.specs.Shape.{IsShaped};
ghost use Rattle.rnix_grammar.specs.Parsed.{IsParsed};
ghost use Rattle.rnix_base.specs.Select.{nodes_of, child_of};
ghost use Rattle.rnix.specs.WholeTree.{HasTokensAlone, IsWhole, IsInTree};

/// States that accessors for required parts return `Some` in a text without errors, and in every tree whose nodes have the children that their kinds
/// require and whose leaves are tokens. It also states that children belong to the tree of their parent. Does nothing at run time.
pub fn nodes_have_parts(text: &str)
    ensures read { (kind : SyntaxKind) (n : Located) → IsParsed (tokens_of text.now) n.tree [] → IsWhole kind n }
    ensures shaped { (kind : SyntaxKind) (n : Located) → IsShaped n.tree → HasTokensAlone n.tree → IsWhole kind n }
    ensures below { (n : Located) (kinds : SyntaxKind → Bool) → All (IsInTree n) (nodes_of kinds n) }
    ensures child { (n : Located) (kinds : SyntaxKind → Bool) (i : ℕ) → IfSome (child_of kinds i n) (IsInTree n) }
{
    let _len = text.len();
}
