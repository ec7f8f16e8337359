//! Reorders elements from postorder to preorder, in place.

ghost use Rattle.std.specs.Prelude.{◌≡◌, ◌<◌, length, map, reverse, IfOk, None, MatchOption};
ghost use Rattle.rnix_green.specs.Forest.{text_of};
ghost use Rattle.rnix_green.specs.Entries.{made};
ghost use Rattle.rnix_green.specs.Kept.{parent_or_root, kept_from};
ghost use Rattle.rnix_green.specs.Packed.{limit};
ghost use Rattle.rnix_green.specs.Postorder.{entry_of, entries_of, parent_number, HasMore, IsReached};

use crate::packed::Packed;
use rnix_kinds::SyntaxKind;
use std::alloc::AllocError;

// A node whose children are being placed, last one first: its number, and the first entry inside it.
#[derive(Clone, Copy)]
pub(crate) struct Frame {
    kind: SyntaxKind,
    size: u32,
    number: u32,
    first: u32,
}

const _: () = prove!(size_of::<Frame>() == 16);

impl Frame {
    fn new(kind: SyntaxKind, size: usize, number: usize, first: usize) -> Frame
        requires size { size < limit }
        requires number { number < limit }
        requires first { first < limit }
        ensures { result ≡ record { kind = kind; size = size; number = number; first = first } }
    {
        Frame {
            kind,
            size: size as u32,
            number: number as u32,
            first: first as u32,
        }
    }
}

// Returns the number of the innermost node, or 0.
fn innermost_number(frames: &[Frame]) -> usize
    ensures { result ≡ parent_or_root (parent_number (reverse frames.now)) }
{
    match frames.last() {
        Some(frame) => frame.number as usize,
        None => 0,
    }
}

// Returns the innermost frame if all its entries have been placed.
fn reached(frames: &[Frame], todo: usize) -> Option<Frame>
    ensures { MatchOption result (HasMore (reverse frames.now) todo) (λ frame. IsReached frames.now todo frame) }
{
    match frames.last() {
        Some(frame) => {
            if frame.first as usize == todo {
                Some(*frame)
            } else {
                None
            }
        }
        None => None,
    }
}

/// Puts each node before its children, by one pass from the last entry to the first. The entries that are left come first, placed
/// elements at the end, and between them is one free place for each frame. A node that has one token alone needs no frame.
pub(crate) fn in_preorder(mut elements: Vec<Packed>, text: &str) -> Result<Vec<Packed>, AllocError>
    requires small { length elements.items < limit }
    requires entries_are { map entry_of elements.items ≡ entries_of (made text.now elements.items) }
    requires text_is { text.now ≡ text_of (made text.now elements.items) }
    ensures { IfOk result (λ v. v.items ≡ kept_from 0 0 None (made text.now elements.items)) }
{
    let mut frames: Vec<Frame> = Vec::new(*elements.allocator());
    let mut offset = text.len();
    let mut todo = elements.len();
    'elements: loop {
        match reached(&frames, todo) {
            Some(frame) => {
                frames.truncate(frames.len() - 1);
                let parent = innermost_number(&frames);
                elements[todo + frames.len()] = Packed::new(
                    frame.kind,
                    offset,
                    parent,
                    frame.size as usize,
                );
            }
            None => {
                if todo == 0 {
                    break;
                }
                todo -= 1;
                let entry = elements[todo];
                let (kind, size) = (entry.kind(), entry.size());
                if size == 2 && elements[todo - 1].size() == 0 {
                    todo -= 1;
                    let token = elements[todo];
                    offset -= token.len_or_start();
                    let number = todo + frames.len();
                    elements[number + 1] = Packed::new(token.kind(), offset, number, 0);
                    elements[number] = Packed::new(kind, offset, innermost_number(&frames), 2);
                } else if size > 0 {
                    let first = todo + 1 - size;
                    frames.push(Frame::new(kind, size, first + frames.len(), first))?;
                } else {
                    offset -= entry.len_or_start();
                    let parent = innermost_number(&frames);
                    elements[todo + frames.len()] = Packed::new(kind, offset, parent, 0);
                }
            }
        }
    }
    Ok(elements)
}
