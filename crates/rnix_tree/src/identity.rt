//! Equality, hashes and `{}` of nodes and tokens.

ghost use Rattle.std.specs.Prelude.{◌≡◌, fold};
ghost use Rattle.rnix_green.specs.Range.{bounds_of};
ghost use Rattle.rnix_tree.specs.Same.{hashed_at};

use crate::element::NodeOrToken;
use crate::node::SyntaxNode;
use crate::token::SyntaxToken;
use rnix_green::TextRange;
use rnix_kinds::SyntaxKind;
use std::fmt;
use std::hash::{Hash, Hasher};

// Hashes a number with a kind and a range.
fn hash_element<H: Hasher>(number: usize, kind: SyntaxKind, range: TextRange, state: &mut H)
    ensures { state.new ≡ fold H.write state.old (hashed_at number kind (bounds_of range)) }
{
    number.hash(state);
    (kind as usize).hash(state);
    range.start().hash(state);
    range.end().hash(state);
}

impl<'t> PartialEq for SyntaxNode<'t> {
    ghost use Rattle.std.specs.Cmp.{partial_equiv_from_equiv};
    ghost use Rattle.rnix_tree.specs.Same.{same_located, same_is_equivalence};

    ghost eq = { same_located };

    ghost laws = { partial_equiv_from_equiv same_is_equivalence };

    fn eq(&self, other: &SyntaxNode<'t>) -> bool {
        self.number == other.number && self.green.is_same(other.green)
    }
}

impl<'t> Eq for SyntaxNode<'t> {
    ghost use Rattle.rnix_tree.specs.Same.{same_is_equivalence};

    ghost laws = { same_is_equivalence };
}

impl<'t> Hash for SyntaxNode<'t> {
    ghost use Rattle.rnix_tree.specs.Same.{hashed, hashed_alike};

    ghost hash_input = { hashed };

    ghost respects_eq = { hashed_alike };

    fn hash<H: Hasher>(&self, state: &mut H) {
        hash_element(self.number, self.kind(), self.text_range(), state);
    }
}

impl<'t> fmt::Display for SyntaxNode<'t> {
    ghost use Rattle.std.specs.Prelude.{Some};
    ghost use Rattle.rnix_green.specs.Tree.{text_at};

    ghost output = { λ node. Some (text_at node) };

    fn fmt<W: fmt::Write>(&self, f: &mut fmt::Formatter<W>) -> fmt::Result {
        f.write_str(self.text())
    }
}

impl<'t> PartialEq for SyntaxToken<'t> {
    ghost use Rattle.std.specs.Cmp.{partial_equiv_from_equiv};
    ghost use Rattle.rnix_tree.specs.Same.{same_located, same_is_equivalence};

    ghost eq = { same_located };

    ghost laws = { partial_equiv_from_equiv same_is_equivalence };

    fn eq(&self, other: &SyntaxToken<'t>) -> bool {
        self.number == other.number && self.green.is_same(other.green)
    }
}

impl<'t> Eq for SyntaxToken<'t> {
    ghost use Rattle.rnix_tree.specs.Same.{same_is_equivalence};

    ghost laws = { same_is_equivalence };
}

impl<'t> Hash for SyntaxToken<'t> {
    ghost use Rattle.rnix_tree.specs.Same.{hashed, hashed_alike};

    ghost hash_input = { hashed };

    ghost respects_eq = { hashed_alike };

    fn hash<H: Hasher>(&self, state: &mut H) {
        hash_element(self.number, self.kind(), self.text_range(), state);
    }
}

impl<'t> fmt::Display for SyntaxToken<'t> {
    ghost use Rattle.std.specs.Prelude.{Some};
    ghost use Rattle.rnix_green.specs.Tree.{text_at};

    ghost output = { λ token. Some (text_at token) };

    fn fmt<W: fmt::Write>(&self, f: &mut fmt::Formatter<W>) -> fmt::Result {
        f.write_str(self.text())
    }
}

impl<'t> fmt::Display for NodeOrToken<SyntaxNode<'t>, SyntaxToken<'t>> {
    ghost use Rattle.std.specs.Prelude.{Some};
    ghost use Rattle.rnix_green.specs.Tree.{text_at};
    ghost use Rattle.rnix_tree.specs.Spots.{located_of};

    ghost output = { λ element. Some (text_at (located_of element)) };

    fn fmt<W: fmt::Write>(&self, f: &mut fmt::Formatter<W>) -> fmt::Result {
        match self {
            NodeOrToken::Node(node) => f.write_str(node.text()),
            NodeOrToken::Token(token) => f.write_str(token.text()),
        }
    }
}
