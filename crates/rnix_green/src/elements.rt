//! A tree from its elements, as they are stored elsewhere.

ghost use Rattle.std.specs.Prelude.{◌≡◌, [], ◌∷◌, ◌++◌, IfOk, OnOk, OnErr};
ghost use Rattle.rnix_green.specs.Kept.{IsKept, AreKept};
ghost use Rattle.rnix_green.specs.Packed.{packed};

use crate::green::GreenNode;
use crate::packed::Packed;
use rnix_kinds::SyntaxKind;
use std::alloc::{AllocError, Global};
use std::marker::Model;

/// Elements in preorder, to which others are added at the end.
#[derive(Drop)]
pub struct ElementList {
    elements: Vec<Packed>,
}

impl Model for ElementList {
    ghost use Rattle.std.specs.Prelude.{List};
    ghost use Rattle.rnix_green.specs.declared.packed.Packed.{Packed as Element};

    ghost Value = { List Element };

    ghost view = { λ list. list.elements.items };
}

impl ElementList {
    /// Returns a list without elements, with room for so many.
    pub fn with_capacity(alloc: Global, count: usize) -> Result<ElementList, AllocError>
        ensures { IfOk result (λ list. list ≡ []) }
    {
        Ok(ElementList {
            elements: Vec::with_capacity(alloc, count)?,
        })
    }

    /// Adds an element: its kind, the offset at which it starts, the number of its parent (0 for the root) and its size, which is 0 for a token, and
    /// for a node the number of elements inside it and one more.
    pub fn push(
        &mut self,
        kind: SyntaxKind,
        start: usize,
        parent: usize,
        size: usize,
    ) -> Result<(), AllocError>
        ensures ok { OnOk result (self.new ≡ self.old ++ (packed kind start parent size ∷ [])) }
        ensures err { OnErr result (self.new ≡ self.old) }
    {
        self.elements.push(Packed::new(kind, start, parent, size))?;
        Ok(())
    }

    /// Returns the tree that has these elements and this text. It copies the text. Nothing is checked.
    pub fn into_tree(self, text: &str) -> Result<GreenNode, AllocError>
        requires { AreKept self text.now }
        ensures { IfOk result (λ tree. IsKept tree self text.now) }
    {
        let ElementList { elements } = self;
        let text = String::from_str(*elements.allocator(), text)?;
        Ok(GreenNode::from_parts(elements, text))
    }
}
