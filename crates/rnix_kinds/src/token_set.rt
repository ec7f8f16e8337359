//! Sets of kinds.

ghost use Rattle.std.specs.Prelude.{◌≡◌, [], ◌∷◌, Contains};
ghost use Rattle.std.specs.Bool.{Decides};
ghost use Rattle.std.specs.FinSet.{contains, insert, union};
ghost use Rattle.rnix_kinds.specs.declared.kinds.SyntaxKind.{SyntaxKind};
ghost use Rattle.rnix_kinds.specs.TokenSet.{set_of};

use crate::kinds::SyntaxKind;
use std::marker::Model;
use std::ops::BitOr;

/// A set of kinds. `a | b` is the union of two sets or kinds; `() | kind` is the set of one kind.
#[derive(Clone, Copy, Debug)]
pub struct TokenSet {
    bits: u128,
}

impl Model for TokenSet {
    ghost use Rattle.std.specs.Prelude.{◌<◌, ◌^◌};
    ghost use Rattle.rnix_kinds.specs.SyntaxKind.{kind_count};
    ghost use Rattle.rnix_kinds.specs.TokenSet.{KindSet, set_code};
    ghost use Rattle.rnix_kinds.specs.KindNumbers.{kinds_of, number_of, number_of-kinds_of};

    ghost Value = { KindSet };

    ghost coded = { set_code };

    ghost view = { λ s. kinds_of s.bits };

    ghost invariant = { λ s. s.bits < 2 ^ kind_count };

    ghost inverse = { λ kinds. record { bits = number_of kinds } };

    ghost inverse_ok = { λ s low i. record { bits = number_of-kinds_of s.bits low i } };
}

impl TokenSet {
    /// The set of no kinds.
    pub const EMPTY: TokenSet = TokenSet { bits: 0 };

    /// Returns the set of one kind.
    pub const fn new(kind: SyntaxKind) -> TokenSet
        ensures { result ≡ set_of (kind ∷ []) }
    {
        TokenSet {
            bits: 1 << (kind as u32),
        }
    }

    /// Returns the set of the kinds in a slice.
    pub fn from_slice(kinds: &[SyntaxKind]) -> TokenSet
        ensures set { result ≡ set_of kinds.now }
        ensures kinds { (kind : SyntaxKind) → Decides (contains result kind) (Contains kinds.now kind) }
    {
        let mut set = TokenSet::EMPTY;
        for kind in kinds {
            set = set.union(TokenSet::new(*kind));
        }
        set
    }

    /// Returns the union of two sets.
    pub const fn union(self, other: TokenSet) -> TokenSet
        ensures { result ≡ union self other }
    {
        TokenSet {
            bits: self.bits | other.bits,
        }
    }

    /// Returns whether the kind is in the set.
    pub const fn contains(&self, kind: SyntaxKind) -> bool
        ensures { result ≡ contains self.now kind }
    {
        self.bits & (1 << (kind as u32)) != 0
    }
}

impl PartialEq for TokenSet {
    ghost use Rattle.std.specs.Cmp.{partial_equiv_from_equiv};
    ghost use Rattle.rnix_kinds.specs.KindNumbers.{same_number, same_number_laws};

    ghost eq = { same_number };

    ghost laws = { partial_equiv_from_equiv same_number_laws };

    fn eq(&self, other: &TokenSet) -> bool {
        self.bits == other.bits
    }
}

impl Eq for TokenSet {
    ghost use Rattle.rnix_kinds.specs.KindNumbers.{same_number_laws};

    ghost laws = { same_number_laws };
}

/// Returns whether two sets contain the same kinds, which they do exactly if they are equal.
pub fn same_sets(a: TokenSet, b: TokenSet) -> bool
    ensures equal { Decides result (a ≡ b) }
    ensures kinds { Decides result ((kind : SyntaxKind) → contains a kind ≡ contains b kind) }
{
    a == b
}

impl BitOr<SyntaxKind> for SyntaxKind {
    type Output = TokenSet;

    ghost bitor_gives = { λ a b r. r ≡ set_of (a ∷ b ∷ []) };

    fn bitor(self, rhs: SyntaxKind) -> TokenSet {
        TokenSet::new(self).union(TokenSet::new(rhs))
    }
}

impl BitOr<SyntaxKind> for TokenSet {
    type Output = TokenSet;

    ghost bitor_gives = { λ a b r. r ≡ insert a b };

    fn bitor(self, rhs: SyntaxKind) -> TokenSet {
        self.union(TokenSet::new(rhs))
    }
}

impl BitOr<TokenSet> for SyntaxKind {
    type Output = TokenSet;

    ghost bitor_gives = { λ a b r. r ≡ insert b a };

    fn bitor(self, rhs: TokenSet) -> TokenSet {
        TokenSet::new(self).union(rhs)
    }
}

impl BitOr<TokenSet> for TokenSet {
    type Output = TokenSet;

    ghost bitor_gives = { λ a b r. r ≡ union a b };

    fn bitor(self, rhs: TokenSet) -> TokenSet {
        self.union(rhs)
    }
}

impl BitOr<SyntaxKind> for () {
    type Output = TokenSet;

    ghost bitor_gives = { λ _ b r. r ≡ set_of (b ∷ []) };

    fn bitor(self, rhs: SyntaxKind) -> TokenSet {
        TokenSet::new(rhs)
    }
}

impl BitOr<()> for SyntaxKind {
    type Output = TokenSet;

    ghost bitor_gives = { λ a _ r. r ≡ set_of (a ∷ []) };

    fn bitor(self, _rhs: ()) -> TokenSet {
        TokenSet::new(self)
    }
}
