//! The texts of names in scope.

ghost use Rattle.std.specs.Prelude.{◌≡◌, Some, nat_eq, IfOk, refl, string_bytes};
ghost use Rattle.std.specs.Cow.{cow_str_bytes};
ghost use Rattle.std.specs.Cmp.{on_equiv, on_per, on_po, on_total, partial_equiv_from_equiv};
ghost use Rattle.std.specs.Cmp.Lexicographic.{nat_list_eq_equiv, nat_list_cmp_total, pointwise, slice_cmp, texts_po, texts_ties};
ghost use Rattle.std.specs.Ordering.{nat_cmp};
ghost use Rattle.nix_scopes.specs.NameTexts.{name_bytes};

use std::alloc::AllocError;
use std::borrow::CowStr;
use std::boxed::Box;
use std::cmp::Ordering;

/// The text of a name, smaller than a `CowStr`: a part of the resolved text, or, for few names, a text that was allocated.
#[derive(Drop)]
pub enum NameText<'t> {
    Borrowed(&'t str),
    Owned(Box<String>),
}

// Returns an allocated text.
#[inline(never)]
fn made<'t>(text: &String) -> Result<NameText<'t>, AllocError>
    ensures { IfOk result (λ copy. name_bytes copy ≡ string_bytes text.now) }
{
    Ok(NameText::Owned(Box::new(*text.allocator(), text.clone()?)?))
}

impl<'t> NameText<'t> {
    /// Copies the text of a name. Allocates only if the text was allocated.
    #[inline(always)]
    pub fn of(text: &CowStr<'t>) -> Result<NameText<'t>, AllocError>
        ensures { IfOk result (λ copy. name_bytes copy ≡ cow_str_bytes text.now) }
    {
        match text {
            CowStr::Borrowed(part) => Ok(NameText::Borrowed(*part)),
            CowStr::Owned(text) => made(text),
        }
    }

    /// Returns the text.
    pub fn as_str(&self) -> &str
        ensures { result.now ≡ name_bytes self.now }
    {
        match self {
            NameText::Borrowed(part) => *part,
            NameText::Owned(text) => text.as_str(),
        }
    }
}

impl<'t> PartialEq for NameText<'t> {
    ghost eq = { λ a b. pointwise nat_eq (name_bytes a) (name_bytes b) };

    ghost laws = { on_per name_bytes (partial_equiv_from_equiv nat_list_eq_equiv) };

    fn eq(&self, other: &Self) -> bool {
        self.as_str() == other.as_str()
    }
}

impl<'t> Eq for NameText<'t> {
    ghost laws = { on_equiv name_bytes nat_list_eq_equiv };
}

impl<'t> PartialOrd for NameText<'t> {
    ghost partial_cmp = { λ a b. Some (slice_cmp nat_cmp (name_bytes a) (name_bytes b)) };

    ghost laws = { on_po name_bytes texts_po };

    fn partial_cmp(&self, other: &Self) -> Option<Ordering> {
        Some(self.cmp(other))
    }
}

impl<'t> Ord for NameText<'t> {
    ghost cmp = { λ a b. slice_cmp nat_cmp (name_bytes a) (name_bytes b) };

    ghost total = { on_total name_bytes nat_list_cmp_total };

    ghost matches_partial_cmp = { λ a b. refl };

    ghost matches_eq = { λ a b. texts_ties (name_bytes a) (name_bytes b) };

    fn cmp(&self, other: &Self) -> Ordering {
        self.as_str().cmp(other.as_str())
    }
}
