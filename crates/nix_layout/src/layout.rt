//! A text as pieces, in groups that are each written on one line or broken.

ghost use Rattle.std.specs.Prelude.{◌≡◌};

use crate::lines::Line;
use crate::piece::{Piece, as_stored};

/// The number of spaces per level.
pub const STEP: usize = 2;

/// What a target is, as far as that decides where it is broken.
#[derive(Clone, Copy, PartialEq, Eq)]
pub enum TargetKind {
    /// Parentheses with what is inside.
    Paren,
    /// A list that is broken only if it has several lines anyway.
    ShortList,
    /// A set, another list or a string.
    Block,
}

/// The part of a group that may be broken while the rest of the group is not: from its opening bracket or quote to the closing one.
#[derive(Clone, Copy, PartialEq, Eq)]
pub struct Target {
    open: u32,
    close: u32,
    pub kind: TargetKind,
}

/// The parts of a group of which one may be broken while the rest of the group is not: the last one, and the last but one.
#[derive(Clone, Copy, PartialEq, Eq)]
pub struct Targets {
    pub last: Option<Target>,
    pub other: Option<Target>,
}

impl Targets {
    /// No parts.
    pub const NONE: Targets = Targets {
        last: None,
        other: None,
    };

    /// Returns the targets with one more behind them.
    pub fn followed_by(self, target: Target) -> Targets {
        Targets {
            last: Some(target),
            other: self.last,
        }
    }
}

impl Target {
    /// Returns the target from one piece to another, given their numbers.
    pub fn new(opening: usize, closing: usize, kind: TargetKind) -> Target {
        Target {
            open: as_stored(opening),
            close: as_stored(closing),
            kind,
        }
    }

    /// Returns the number of the opening piece.
    pub fn open(&self) -> usize
        ensures { result ≡ self.now.open }
    {
        self.open as usize
    }

    /// Returns the number of the closing piece.
    pub fn close(&self) -> usize
        ensures { result ≡ self.now.close }
    {
        self.close as usize
    }
}

/// Pieces that are written on one line, or with a line feed in each gap of the group.
#[derive(Clone, Copy, PartialEq, Eq)]
pub struct Group {
    first: u32,
    end: u32,
    /// The number of the group around it; its own number if it is the outermost.
    pub parent: u32,
    /// The parts that may be broken instead of the whole group.
    pub targets: Targets,
    /// Whether a target is broken whenever that makes the group fit, or only if the group around it has the same target.
    pub absorbs: bool,
}

impl Group {
    /// Returns a group without pieces and targets, given the number of its first piece and the group around it.
    pub fn new(first: usize, parent: u32, absorbs: bool) -> Group {
        let first = as_stored(first);
        Group {
            first,
            end: first,
            parent,
            targets: Targets::NONE,
            absorbs,
        }
    }

    /// Returns the same group with its pieces and its targets.
    pub fn closed(self, end: usize, targets: Targets) -> Group {
        Group {
            end: as_stored(end),
            targets,
            ..self
        }
    }

    /// Returns the number of its first piece.
    pub fn first(&self) -> usize
        ensures { result ≡ self.now.first }
    {
        self.first as usize
    }

    /// Returns the number of the piece after its last one.
    pub fn end(&self) -> usize
        ensures { result ≡ self.now.end }
    {
        self.end as usize
    }

    /// Returns whether all pieces of a target are in the group.
    pub fn has_part(&self, target: Target) -> bool {
        self.first <= target.open && target.close < self.end
    }
}

/// A text as pieces and groups, with the lines of its movable strings. Groups are in the order of their first pieces, outer groups before inner ones.
#[derive(Drop)]
pub struct Layout {
    pub pieces: Vec<Piece>,
    pub groups: Vec<Group>,
    pub lines: Vec<Line>,
}
