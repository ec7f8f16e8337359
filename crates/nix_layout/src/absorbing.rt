//! The parts of a node of which one may be broken while the rest of the node stays on its line, as in `a = f {` .. `};`.

use crate::frame::{Frame, Place};
use crate::layout::{Target, TargetKind, Targets};
use rnix::SyntaxKind;
use rnix::ast::BinOpKind;

/// A node that the walk leaves, and the parts at which the node around it may be broken.
#[derive(Clone, Copy)]
pub struct Offer {
    pub kind: SyntaxKind,
    /// Whether it is a function of one name with a set, a list or a string as its body, or such an argument after a name.
    pub is_short: bool,
    pub targets: Targets,
}

impl Offer {
    /// Returns what a string with several lines offers.
    pub fn of_string(target: Target) -> Offer {
        Offer {
            kind: SyntaxKind::NODE_STRING,
            is_short: false,
            targets: Targets::NONE.followed_by(target),
        }
    }
}

// Returns whether nodes of a kind can be broken on their own: sets, lists and strings.
fn is_term(kind: SyntaxKind) -> bool {
    matches!(
        kind,
        SyntaxKind::NODE_ATTR_SET | SyntaxKind::NODE_LIST | SyntaxKind::NODE_STRING
    )
}

// Returns whether the operator joins sets, lists or strings.
fn is_joining(operator: Option<BinOpKind>) -> bool {
    matches!(
        operator,
        Some(BinOpKind::Update | BinOpKind::Concat | BinOpKind::Add)
    )
}

// Returns whether a node, whose last piece precedes the piece `end`, is a call that is broken at its end, and not between parentheses.
fn is_tail_call(offer: &Offer, end: usize) -> bool {
    match offer.targets.last {
        Some(target) if offer.kind == SyntaxKind::NODE_APPLY => {
            target.close().saturating_add(1) == end && target.kind != TargetKind::Paren
        }
        _ => false,
    }
}

// Returns whether an entry of a set may be broken at the targets of its value.
fn entry_takes(child: SyntaxKind) -> bool {
    is_term(child)
        || matches!(
            child,
            SyntaxKind::NODE_LAMBDA
                | SyntaxKind::NODE_WITH
                | SyntaxKind::NODE_PAREN
                | SyntaxKind::NODE_APPLY
                | SyntaxKind::NODE_BIN_OP
        )
}

// Returns whether parentheses may be broken at the targets of what is inside.
fn paren_takes(place: Place, offer: &Offer) -> bool {
    let is_inside = matches!(
        offer.kind,
        SyntaxKind::NODE_LAMBDA | SyntaxKind::NODE_WITH | SyntaxKind::NODE_APPLY
    );
    match place {
        Place::Value => is_term(offer.kind),
        Place::LastArgument => is_term(offer.kind) || offer.is_short,
        _ => is_term(offer.kind) || is_inside,
    }
}

// Returns whether a function may be broken at the targets of its body.
fn lambda_takes(frame: &Frame, child: SyntaxKind) -> bool {
    let is_body = matches!(child, SyntaxKind::NODE_LAMBDA | SyntaxKind::NODE_WITH);
    frame.names > 0 && (is_term(child) || is_body)
}

/// Returns whether a node may be broken at the targets of its last child so far, which ends before the piece `end`.
pub fn takes_targets(frame: &Frame, offer: &Offer, end: usize) -> bool {
    match frame.kind {
        SyntaxKind::NODE_WITH => is_term(offer.kind),
        SyntaxKind::NODE_LAMBDA => lambda_takes(frame, offer.kind),
        SyntaxKind::NODE_APPLY => {
            let is_argument = is_term(offer.kind) || offer.kind == SyntaxKind::NODE_PAREN;
            !frame.is_paired && (is_argument || offer.kind == SyntaxKind::NODE_APPLY)
        }
        SyntaxKind::NODE_PAREN => paren_takes(frame.place, offer),
        SyntaxKind::NODE_BIN_OP if is_joining(frame.operator) => {
            !frame.is_hung
                && frame.children > 2
                && (is_term(offer.kind) || is_tail_call(offer, end))
        }
        SyntaxKind::NODE_ATTRPATH_VALUE => entry_takes(offer.kind),
        _ => false,
    }
}

/// Returns whether a node with targets is broken there whenever that makes it fit. Other nodes are broken there only if the node around them is.
pub fn absorbs(kind: SyntaxKind, place: Place) -> bool {
    match kind {
        SyntaxKind::NODE_ATTRPATH_VALUE | SyntaxKind::NODE_PAREN | SyntaxKind::NODE_LAMBDA => true,
        SyntaxKind::NODE_APPLY => place != Place::Callee,
        _ => false,
    }
}

// Returns the node's own target: from its opening bracket to the last piece before `end`.
fn own_target(frame: &Frame, end: usize) -> Option<Target> {
    let open = frame.open as usize;
    let close = end.saturating_sub(1);
    let is_filled = close > open.saturating_add(1);
    let kind = match frame.kind {
        SyntaxKind::NODE_PAREN => TargetKind::Paren,
        SyntaxKind::NODE_LIST if frame.is_short => TargetKind::ShortList,
        SyntaxKind::NODE_ATTR_SET | SyntaxKind::NODE_LIST => TargetKind::Block,
        _ => return None,
    };
    if is_filled {
        Some(Target::new(open, close, kind))
    } else {
        None
    }
}

// Returns whether a node is a function of one name with a bracket or a string as its body, or a call of a name with such an argument.
fn is_short(frame: &Frame) -> bool {
    let ends = frame.before.is_some_and(|kind| is_term(kind));
    match frame.kind {
        SyntaxKind::NODE_LAMBDA => frame.names == 1 && ends,
        SyntaxKind::NODE_APPLY => frame.first == Some(SyntaxKind::NODE_IDENT) && ends,
        _ => false,
    }
}

/// Returns what a node offers to the node around it, given the number of the piece after its last one.
pub fn offer_of(frame: &Frame, end: usize) -> Offer {
    let own = own_target(frame, end);
    let follows_with = frame.kind == SyntaxKind::NODE_LAMBDA
        && frame.before == Some(SyntaxKind::NODE_WITH);
    let targets = match own {
        Some(own) if frame.targets == Targets::NONE => Targets::NONE.followed_by(own),
        _ if follows_with => Targets::NONE,
        _ => frame.targets,
    };
    Offer {
        kind: frame.kind,
        is_short: is_short(frame),
        targets,
    }
}
