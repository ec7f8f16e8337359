//! The nodes around the walk's position.

use crate::absorbing::Offer;
use crate::grouping::is_grouped;
use crate::layout::Targets;
use crate::spacing::Child;
use rnix::SyntaxKind;
use rnix::ast::BinOpKind;

/// Where a node is in the node around it.
#[derive(Clone, Copy, PartialEq, Eq)]
pub enum Place {
    /// The value of an entry.
    Value,
    /// The function of a call.
    Callee,
    /// An argument of a call, but not the last one, or one of two lists at the end of the call.
    Argument,
    /// The last argument of a call.
    LastArgument,
    /// Any other place.
    Elsewhere,
}

/// A node that the walk has entered and not left.
#[derive(Clone, Copy)]
pub struct Frame {
    pub kind: SyntaxKind,
    pub operator: Option<BinOpKind>,
    pub place: Place,
    /// The number of its opening bracket, or of its first piece if it has none.
    pub open: u32,
    /// The number of its group, and of the group of its condition.
    pub group: u32,
    pub inner: u32,
    /// Whether the group began with the node.
    pub is_own: bool,
    /// The kind of its first child, and of its last child so far, that is not trivia.
    pub first: Option<SyntaxKind>,
    pub before: Option<SyntaxKind>,
    /// The number of its children so far that are not trivia.
    pub children: usize,
    /// The number of names before its body, if it is a function whose parameter is a name; 0 otherwise.
    pub names: usize,
    /// Whether the line ends in each of its gaps where that is possible.
    pub is_expanded: bool,
    /// Whether it is a list that is broken in place of the call around it only if it has several lines anyway.
    pub is_short: bool,
    /// Whether it is an operation whose operators have the indentation of the line on which it begins.
    pub is_hung: bool,
    /// Whether it is a call whose last two arguments are lists.
    pub is_paired: bool,
    /// Whether it is a call that is always on one line.
    pub is_plain: bool,
    /// The parts of it that may be broken.
    pub targets: Targets,
    /// The number of elements up to its end.
    pub end: usize,
}

impl Frame {
    /// Returns the frame of a node that is described as a child, without children, pieces and a group.
    pub fn of(child: Child) -> Frame {
        Frame {
            kind: child.kind,
            is_expanded: child.is_expanded,
            is_short: child.is_short,
            is_paired: child.is_paired,
            ..NO_FRAME
        }
    }

    /// Returns the frame after one more child of a kind.
    pub fn after(self, kind: SyntaxKind) -> Frame {
        Frame {
            first: self.first.or(Some(kind)),
            before: Some(kind),
            children: self.children.saturating_add(1),
            ..self
        }
    }

    /// Returns the frame with the targets of its last child. Those of arguments are added to those of the function.
    pub fn with_targets(self, offer: &Offer) -> Frame {
        let targets = match offer.targets.last {
            Some(target) if self.kind == SyntaxKind::NODE_APPLY && self.children > 1 => {
                self.targets.followed_by(target)
            }
            None => self.targets,
            _ => offer.targets,
        };
        Frame { targets, ..self }
    }
}

/// The frame around that of the root, which belongs to no node.
pub const NO_FRAME: Frame = Frame {
    kind: SyntaxKind::NODE_ERROR,
    operator: None,
    place: Place::Elsewhere,
    open: 0,
    group: 0,
    inner: 0,
    is_own: false,
    first: None,
    before: None,
    children: 0,
    names: 0,
    is_expanded: false,
    is_short: false,
    is_hung: false,
    is_paired: false,
    is_plain: false,
    targets: Targets::NONE,
    end: 0,
};

/// Returns whether a node is a call that is always on one line, or the function of one, given the node around it and its place there.
pub fn is_on_one_line(parent: &Frame, child: Child, place: Place) -> bool {
    child.is_plain || (place == Place::Callee && parent.is_plain)
}

/// Returns the number of names before the body of a function whose parameter is a name, or 0 for any other node, given the node around it.
pub fn names_of(parent: &Frame, child: Child) -> usize {
    if child.is_named_lambda {
        parent.names.saturating_add(1)
    } else {
        0
    }
}

/// Returns where the next child of a node is.
pub fn place_in(parent: &Frame) -> Place {
    match parent.kind {
        SyntaxKind::NODE_ATTRPATH_VALUE if parent.before == Some(SyntaxKind::TOKEN_ASSIGN) => {
            Place::Value
        }
        SyntaxKind::NODE_APPLY if parent.before.is_none() => Place::Callee,
        SyntaxKind::NODE_APPLY if parent.is_paired || parent.place == Place::Callee => {
            Place::Argument
        }
        SyntaxKind::NODE_APPLY => Place::LastArgument,
        _ => Place::Elsewhere,
    }
}

/// Returns whether a node has a group of its own instead of sharing its parent's.
pub fn has_group(parent: &Frame, kind: SyntaxKind, operator: Option<BinOpKind>) -> bool {
    match kind {
        SyntaxKind::NODE_APPLY => !parent.is_paired || parent.before.is_some(),
        SyntaxKind::NODE_BIN_OP => {
            parent.kind != SyntaxKind::NODE_BIN_OP || parent.operator != operator
        }
        SyntaxKind::NODE_IF_ELSE => {
            parent.kind != SyntaxKind::NODE_IF_ELSE || parent.before != Some(SyntaxKind::TOKEN_ELSE)
        }
        _ => is_grouped(kind),
    }
}
