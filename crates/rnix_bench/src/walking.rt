//! Walks over a tree, each with what it counts.

use rnix_tree::{SyntaxNode, TokenAtOffset, WalkEvent};

// How many chains of parents are followed, and how many offsets are looked up.
const CHAINS: u64 = 10_000;

const OFFSETS: u64 = 100_000;

// The next of a sequence of random numbers.
fn next_number(number: u64) -> u64 {
    number
        .wrapping_mul(6_364_136_223_846_793_005)
        .wrapping_add(1_442_695_040_888_963_407)
}

// The offset in a node's range that a number determines.
fn offset_in(node: &SyntaxNode<'_>, number: u64) -> usize {
    let range = node.text_range();
    let len = range.end().saturating_sub(range.start());
    let high = (number >> 16) as usize;
    range.start().saturating_add(high % len.max(1))
}

/// How many events a walk in preorder has.
pub fn count_events(root: &SyntaxNode<'_>) -> usize {
    root.preorder_with_tokens().count()
}

/// How many bytes the ranges of all elements have together.
pub fn count_range_bytes(root: &SyntaxNode<'_>) -> usize {
    let mut bytes: usize = 0;
    for event in root.preorder_with_tokens() {
        if let WalkEvent::Enter(element) = event {
            let range = element.text_range();
            bytes = bytes.saturating_add(range.end().saturating_sub(range.start()));
        }
    }
    bytes
}

/// How many bytes the tokens at random offsets have together.
pub fn look_up(root: &SyntaxNode<'_>) -> usize {
    let range = root.text_range();
    let (mut number, mut bytes): (u64, usize) = (1, 0);
    for _turn in 0..OFFSETS {
        number = next_number(number);
        let offset = offset_in(root, number);
        if range.start() <= offset && offset <= range.end() {
            if let Some(token) = root.token_at_offset(offset).left_biased() {
                bytes = bytes.saturating_add(token.text().len());
            }
        }
    }
    bytes
}

/// How many nodes are around the tokens at random offsets.
pub fn follow_parents(root: &SyntaxNode<'_>) -> usize {
    let range = root.text_range();
    let (mut number, mut nodes): (u64, usize) = (1, 0);
    for _turn in 0..CHAINS {
        number = next_number(number);
        let offset = offset_in(root, number);
        if range.start() <= offset && offset <= range.end() {
            if let TokenAtOffset::Single(token) = root.token_at_offset(offset) {
                if let Some(parent) = token.parent() {
                    nodes = nodes.saturating_add(parent.ancestors().count());
                }
            }
        }
    }
    nodes
}
