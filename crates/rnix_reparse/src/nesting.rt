//! How deep a node is in its tree, and how deep its tree is.

ghost use Rattle.std.specs.Prelude.{◌≡◌, ◌<◌, length, IsTrue};
ghost use Rattle.rnix_green.specs.Tree.{items_of, item, part_at};
ghost use Rattle.rnix_reparse.specs.TreeHeight.{AreAround, height, FitsAt};

use rnix::Parse;
use rnix_green::GreenNode;
use rnix_tree::{SyntaxNode, WalkEvent};

// The number of counted positions that may be inside one another.
const DEPTH_LIMIT: usize = 512;

/// Returns how many nodes are around an element.
pub(crate) fn depth_of(green: &GreenNode, number: usize) -> usize
    requires { number < length (items_of green.now) }
    ensures { AreAround green.now (item green.now number).parent result }
{
    let mut depth = 0;
    let mut above = green.element(number).parent;
    while let Some(parent) = above {
        depth += 1;
        above = green.element(parent).parent;
    }
    depth
}

/// Returns how many elements at most are inside one another, the node itself included.
pub(crate) fn height_of(node: &SyntaxNode<'_>) -> usize
    ensures { result ≡ height (part_at node.now) }
{
    let mut depth: usize = 0;
    let mut highest: usize = 0;
    for event in node.preorder_with_tokens() {
        match event {
            WalkEvent::Enter(_) => {
                depth += 1;
                highest = highest.max(depth);
            }
            WalkEvent::Leave(_) => depth -= 1,
        }
    }
    highest
}

/// Returns whether a tree, in place of the node of a number, nests no deeper than the limit. Each node and token counts, so a tree that would fit may be
/// refused.
pub(crate) fn fits_at(green: &GreenNode, number: usize, new: &Parse) -> bool
    requires { number < length (items_of green.now) }
    ensures { IsTrue result → FitsAt green.now number new.now.tree }
{
    let depth = depth_of(green, number);
    let height = height_of(&new.syntax());
    height <= DEPTH_LIMIT && depth <= DEPTH_LIMIT - height
}
