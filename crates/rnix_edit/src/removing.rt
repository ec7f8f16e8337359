//! Removing nodes.

ghost use Rattle.std.specs.Prelude.{IfOk};
ghost use Rattle.rnix_edit.specs.Edited.{IfDone, IfRefused, IsRemoved, IsNotRemoved};

use crate::check::is_without;
use crate::cut::cut_of;
use crate::edited::{Edited, Refusal};
use crate::node_range::node_range_of;
use crate::parsed_edit::{ParsedEdit, read_spliced};
use rnix::SyntaxNode;
use std::alloc::{AllocError, Global};

/// Returns the text without a node: an entry of a set or a `let`, or an item of a list. If only comments share its line, the line is removed with it. Comments
/// after the node are removed if nothing else follows them on the line. All other comments stay. `root` is the root of the tree of `text`.
pub fn remove(
    alloc: Global,
    text: &str,
    root: &SyntaxNode<'_>,
    node: &SyntaxNode<'_>,
) -> Result<Edited, AllocError>
    ensures done { IfOk result (IfDone (IsRemoved text.now root.now node.now)) }
    ensures refused { IfOk result (IfRefused (λ refusal. IsNotRemoved refusal text.now root.now node.now)) }
{
    let cut = cut_of(text, node);
    let (made, read) = match read_spliced(alloc, text, cut.start, cut.end, "")? {
        ParsedEdit::Read(made, read) => (made, read),
        ParsedEdit::Refused(refusal) => return Ok(Edited::Refused(refusal)),
    };
    let old = node_range_of(node);
    if is_without(root, old, cut.comments, &read.syntax()) {
        Ok(Edited::Done(made))
    } else {
        Ok(Edited::Refused(Refusal::ReadOtherwise))
    }
}
