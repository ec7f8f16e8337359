//! How groups are written: on one line, or broken.

use crate::layout::{Group, Layout, STEP, Target, Targets};
use crate::measuring::{Measures, Room};
use crate::piece::{Gap, Level, Piece, as_stored};
use std::alloc::{AllocError, Global};

// The number of columns of a line after its indentation.
const LINE: usize = 100;
/// The largest number of spaces at the start of a line.
pub const MOST_BLANKS: usize = 80;

// How a group is written.
#[derive(Clone, Copy, PartialEq, Eq)]
enum Mode {
    // On one line.
    Flat,
    // With its last target broken, or the other one.
    Around,
    AroundOther,
    // With a line for each part.
    Broken,
}

/// The state of the last line of the new text.
#[derive(Clone, Copy)]
pub struct LineState {
    /// The column.
    pub column: usize,
    /// The indentation of the line.
    pub indent: usize,
}

// A group that has begun.
#[derive(Clone, Copy)]
struct Opened {
    mode: Mode,
    // Where it begins: the column, and the indentation of the line.
    column: u32,
    indent: u32,
}

// The state of a group that does not exist.
const UNKNOWN: Opened = Opened {
    mode: Mode::Broken,
    column: 0,
    indent: 0,
};

impl Opened {
    // Returns a group with its mode that begins in a state of its line.
    fn new(mode: Mode, line_state: LineState) -> Opened {
        Opened {
            mode,
            column: as_stored(line_state.column),
            indent: as_stored(line_state.indent),
        }
    }

    // Returns the state of the line in which it begins.
    fn line_state(self) -> LineState {
        LineState {
            column: self.column as usize,
            indent: self.indent as usize,
        }
    }
}

// Returns the indentation of a line of a group.
fn indent_of(opened: Opened, level: Level) -> usize {
    let LineState { column, indent } = opened.line_state();
    let is_same = match level {
        Level::Same => true,
        Level::Inner => false,
        Level::Operator => column == indent,
    };
    if is_same {
        indent
    } else {
        indent.saturating_add(STEP).min(MOST_BLANKS)
    }
}

/// The groups of a layout that have begun.
#[derive(Drop)]
pub struct Modes {
    measures: Measures,
    // Indexed by their numbers.
    opened: Vec<Opened>,
}

impl Modes {
    /// Returns the modes of a layout none of whose groups has begun.
    pub fn of(alloc: Global, layout: &Layout) -> Result<Modes, AllocError> {
        Ok(Modes {
            measures: Measures::of(alloc, layout)?,
            opened: Vec::with_capacity(alloc, layout.groups.len())?,
        })
    }

    // Returns the group with a number.
    fn group_at(&self, number: usize) -> Opened {
        self.opened.get(number).copied().unwrap_or(UNKNOWN)
    }

    /// Returns whether a group is broken, given its number.
    pub fn is_broken(&self, number: u32) -> bool {
        self.group_at(number as usize).mode == Mode::Broken
    }

    /// Returns whether the line ends in a gap.
    pub fn ends_line(&self, gap: Gap) -> bool {
        gap.is_hard || (gap.can_break && self.is_broken(gap.group))
    }

    /// Returns whether the line ends after the piece with a number.
    pub fn ends_line_after(&self, pieces: &[Piece], number: usize) -> bool {
        match pieces.get(number.saturating_add(1)) {
            Some(next) => self.ends_line(next.gap),
            None => true,
        }
    }

    /// Returns the indentation of a line that begins after a gap.
    pub fn indent_after(&self, gap: Gap) -> usize {
        indent_of(self.group_at(gap.group as usize), gap.level)
    }

    // Returns the number of columns that have to follow a group on its line.
    fn tail_of(&self, layout: &Layout, group: &Group) -> usize {
        let Some(next) = layout.pieces.get(group.end()) else {
            return 0;
        };
        let gap = next.gap;
        if !gap.can_break || self.ends_line(gap) {
            return self.measures.tail(group.end());
        }
        let rest = if next.has_lines() {
            0
        } else {
            self.measures.tail(group.end().saturating_add(1))
        };
        rest.saturating_add(usize::from(gap.blanks))
            .saturating_add(next.width())
    }

    // Returns the target that is broken in the group around a group, if that is a group and one is.
    fn outer_target(&self, layout: &Layout, group: &Group) -> Option<Target> {
        let parent = group.parent as usize;
        let targets = layout.groups.get(parent)?.targets;
        match self.group_at(parent).mode {
            Mode::Around => targets.last,
            Mode::AroundOther => targets.other,
            _ => None,
        }
    }

    // Returns whether a group may be broken at one of its targets, and fits then.
    fn fits_around(
        &self,
        layout: &Layout,
        group: &Group,
        room: Room,
        target: Option<Target>,
        outer: Option<Target>,
    ) -> bool {
        let Some(part) = target else {
            return false;
        };
        let can_absorb = group.absorbs || target == outer;
        can_absorb && self.measures.fits_around(&layout.pieces, group, part, room)
    }

    // Returns the mode of a group that does not fit on the line, given the target that is broken in the group around it.
    fn overflow_mode(
        &self,
        layout: &Layout,
        group: &Group,
        room: Room,
        outer: Option<Target>,
    ) -> Mode {
        let Targets { last, other } = group.targets;
        if self.fits_around(layout, group, room, last, outer) {
            Mode::Around
        } else if self.fits_around(layout, group, room, other, outer) {
            Mode::AroundOther
        } else {
            Mode::Broken
        }
    }

    // Returns the mode of a group that begins in a given state of its line.
    fn mode_of(
        &self,
        layout: &Layout,
        number: usize,
        group: &Group,
        line_state: LineState,
    ) -> Mode {
        let around = self.group_at(group.parent as usize).mode;
        if number > 0 && around == Mode::Flat {
            return Mode::Flat;
        }
        let outer = self.outer_target(layout, group);
        let is_part = outer.is_some_and(|target| group.has_part(target));
        let room = Room {
            column: line_state.column,
            indent: line_state.indent,
            tail: self.tail_of(layout, group),
            limit: LINE.saturating_add(line_state.indent),
        };
        if !is_part && self.measures.fits(&layout.pieces, group, room) {
            Mode::Flat
        } else {
            self.overflow_mode(layout, group, room, outer)
        }
    }

    /// Begins the groups that start with this piece; `line_state` is the state before the piece.
    pub fn open(
        &mut self,
        layout: &Layout,
        piece: usize,
        line_state: LineState,
    ) -> Result<(), AllocError> {
        for number in self.opened.len()..layout.groups.len() {
            let Some(group) = layout.groups.get(number) else {
                break;
            };
            if group.first() > piece {
                break;
            }
            let mode = self.mode_of(layout, number, group, line_state);
            self.opened.push(Opened::new(mode, line_state))?;
        }
        Ok(())
    }

    // Returns whether a group would have the same mode if it began where it began before.
    fn is_kept(&self, layout: &Layout, number: usize) -> bool {
        match (layout.groups.get(number), self.opened.get(number)) {
            (Some(group), Some(opened)) => {
                self.mode_of(layout, number, group, opened.line_state()) == opened.mode
            }
            _ => true,
        }
    }

    /// Returns whether all groups have the same modes in another layout, which differs only in which gaps are hard.
    pub fn are_kept(&mut self, layout: &Layout) -> bool {
        self.measures.count_breaks(&layout.pieces);
        for number in 0..layout.groups.len() {
            if !self.is_kept(layout, number) {
                return false;
            }
        }
        true
    }
}
