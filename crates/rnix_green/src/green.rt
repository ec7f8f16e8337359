//! Trees: a list of elements in preorder, and one text.

ghost use Rattle.std.specs.Bool.{Decides};
ghost use Rattle.std.specs.Prelude.{◌≡◌};
ghost use Rattle.rnix_green.specs.Kept.{parent_kept};

use crate::packed::Packed;
use rnix_kinds::SyntaxKind;
use std::alloc::{AllocError, Global};
use std::marker::Model;

/// An element: a node or a token.
#[derive(Clone, Copy)]
pub struct Element {
    pub kind: SyntaxKind,
    pub is_node: bool,
    pub start: usize,
    pub end: usize,
    pub parent: Option<usize>,
    /// The number of elements inside.
    pub below: usize,
}

/// A tree, which nodes and tokens borrow. Only `set_node` changes it.
#[derive(Drop)]
pub struct GreenNode {
    pub(crate) elements: Vec<Packed>,
    pub(crate) text: String,
}

impl Model for GreenNode {
    ghost use Rattle.std.specs.Prelude.{string_bytes};
    ghost use Rattle.rnix_green.specs.Tree.{Tree, tree_code};

    ghost Value = { Tree };

    ghost coded = { tree_code };

    ghost use Rattle.rnix_green.specs.Kept.{tree_from, IsKept};

    ghost view = { λ g. tree_from g.elements.items (string_bytes g.text) };

    ghost invariant = { λ g. IsKept (tree_from g.elements.items (string_bytes g.text)) g.elements.items (string_bytes g.text) };
}

// Returns the stored parent of an element; the first element has none.
fn parent_kept(number: usize, parent: usize) -> Option<usize>
    ensures { result ≡ parent_kept number parent }
{
    if number == 0 { None } else { Some(parent) }
}

// Returns whether two lists hold equal elements.
fn same_elements(a: &[Packed], b: &[Packed]) -> bool
    ensures { Decides result (a.now ≡ b.now) }
{
    a == b
}

impl GreenNode {
    ghost use Rattle.std.specs.Prelude.{◌≡◌, ◌<◌, ◌≤◌, ◌+◌, ◌^◌, ℕ, length, IfOk, string_bytes};
    ghost use Rattle.rnix_green.specs.Tree.{item, items_of, text_at};
    ghost use Rattle.rnix_green.specs.Kept.{item_from, tree_from, start_at, IsKept};

    pub(crate) fn from_parts(elements: Vec<Packed>, text: String) -> Self
        requires { IsKept (tree_from elements.items (string_bytes text)) elements.items (string_bytes text) }
        ensures { result ≡ tree_from elements.items (string_bytes text) }
    {
        GreenNode { elements, text }
    }

    /// Returns the elements and the text.
    pub(crate) fn parts(&self) -> (&[Packed], &str)
        ensures { IsKept self.now result.0.now result.1.now }
    {
        (&self.elements, self.text.as_str())
    }

    pub(crate) fn allocator(&self) -> Global {
        *self.elements.allocator()
    }

    /// Returns a copy of the tree.
    pub fn try_clone(&self) -> Result<GreenNode, AllocError>
        ensures { IfOk result (λ tree. tree ≡ self.now) }
    {
        let elements = self.elements.clone()?;
        let text = self.text.clone()?;
        Ok(GreenNode { elements, text })
    }

    // Returns where an element starts, or the end of the text if there is no such element.
    fn start_at(&self, number: usize) -> usize
        ensures { result ≡ start_at self.now number }
    {
        if number < self.elements.len() {
            self.elements[number].len_or_start()
        } else {
            self.text.len()
        }
    }

    /// Returns the element with a number in preorder.
    pub fn element(&self, number: usize) -> Element
        requires { number < length (items_of self.now) }
        ensures is { item_from result ≡ item self.now number }
        ensures ordered { result.start ≤ result.end }
        ensures inside { number + 1 + result.below ≤ length (items_of self.now) }
        ensures next_fits { number + 1 + result.below < 2 ^ 63 }
    {
        let element = self.elements[number];
        let size = element.size();
        let below = size.saturating_sub(1);
        Element {
            kind: element.kind(),
            is_node: size > 0,
            start: element.len_or_start(),
            end: self.start_at(number + 1 + below),
            parent: parent_kept(number, element.parent()),
            below,
        }
    }

    /// Returns whether the trees are equal as values.
    pub fn is_same(&self, other: &GreenNode) -> bool
        ensures { Decides result (self.now ≡ other.now) }
    {
        self.text == other.text && same_elements(&self.elements, &other.elements)
    }

    /// Returns the first of the elements from `from` to `end` that starts at the offset or after it.
    pub fn first_from(&self, from: usize, end: usize, offset: usize) -> usize
        requires ordered { from ≤ end }
        requires there { end ≤ length (items_of self.now) }
        ensures low { from ≤ result }
        ensures high { result ≤ end }
        ensures before { (m : ℕ) → from ≤ m → m < result → (item self.now m).start < offset }
        ensures behind { (m : ℕ) → result ≤ m → m < end → offset ≤ (item self.now m).start }
    {
        from + self.elements[from..end].partition_point(|element| element.len_or_start() < offset)
    }

    /// Returns the number of elements in the tree.
    pub fn element_count(&self) -> usize
        ensures value { result ≡ length (items_of self.now) }
        ensures fits { result < 2 ^ 64 }
    {
        self.elements.len()
    }

    /// Returns the text of the element with a number in preorder.
    pub fn text_at(&self, number: usize) -> &str
        requires { number < length (items_of self.now) }
        ensures { result.now ≡ text_at record { tree = self.now; number = number } }
    {
        let element = self.element(number);
        &self.text.as_str()[element.start..element.end]
    }
}
