//! Prefix sums of the widths of pieces, which tell in constant time whether a group fits on a line.

ghost use Rattle.std.specs.Prelude.{◌≡◌, map, get_or};
ghost use Rattle.nix_layout.specs.Fitting.{one_if, end_at, breaks_at, tail_at, width_between, breaks_between, fits};
ghost use Rattle.nix_layout.specs.Pieces.{has_lines};

use crate::layout::{Group, Layout, Target, TargetKind};
use crate::piece::{Piece, PieceKind, as_stored};
use std::alloc::{AllocError, Global};

/// Widths of pieces and ends of lines, summed up to each piece.
#[derive(Drop)]
pub struct Measures {
    // One for each piece, and a last one for the whole text.
    sums: Vec<Sum>,
    // The number of columns from each gap to the next place where the line may end, in reverse order: the first is 0, for the end of the text.
    tails: Vec<u32>,
}

// The sums up to a piece.
#[derive(Clone, Copy)]
struct Sum {
    // The column at which the piece ends, if all pieces are written on one line; 0 for the whole text.
    end: u32,
    // The number of unconditional line ends before its gap, or in the whole text.
    breaks: u32,
}

/// The space for a group on its line.
#[derive(Clone, Copy)]
pub struct Room {
    /// The column at which the group begins.
    pub column: usize,
    /// The column at which the line begins.
    pub indent: usize,
    /// The number of columns that have to follow on the same line.
    pub tail: usize,
    /// The largest column at which the line may end.
    pub limit: usize,
}

// Returns whether the line always ends in the gap before a piece: 0 or 1.
fn hard_gap(piece: &Piece) -> usize
    ensures { result ≡ one_if piece.now.gap.is_hard }
{
    usize::from(piece.gap.is_hard)
}

// Returns whether a piece has several lines: 0 or 1.
fn several_lines(piece: &Piece) -> usize
    ensures { result ≡ one_if (has_lines piece.now) }
{
    usize::from(piece.has_lines())
}

// Returns the number of characters of the first line of the piece with a number, or 0 if there is none.
fn width_of(pieces: &[Piece], number: usize) -> usize
    ensures { result ≡ get_or (map (λ p. p.width) pieces.now) number 0 }
{
    if number < pieces.len() {
        pieces[number].width()
    } else {
        0
    }
}

// Returns whether the line always ends before the piece with a number: 0 or 1.
fn hard_gap_of(pieces: &[Piece], number: usize) -> usize
    ensures { result ≡ get_or (map (λ p. one_if p.gap.is_hard) pieces.now) number 0 }
{
    if number < pieces.len() {
        hard_gap(&pieces[number])
    } else {
        0
    }
}

// Returns the column at which the piece with a number ends, or 0 if there is none.
fn end_of(sums: &[Sum], number: usize) -> usize
    ensures { result ≡ get_or (map (λ s. s.end) sums.now) number 0 }
{
    if number < sums.len() {
        sums[number].end as usize
    } else {
        0
    }
}

// Returns the number of line ends before the piece with a number, or 0 if there is none.
fn breaks_of(sums: &[Sum], number: usize) -> usize
    ensures { result ≡ get_or (map (λ s. s.breaks) sums.now) number 0 }
{
    if number < sums.len() {
        sums[number].breaks as usize
    } else {
        0
    }
}

// Returns the sums up to a piece.
fn sum_of(end: usize, breaks: usize) -> Sum {
    Sum {
        end: as_stored(end),
        breaks: as_stored(breaks),
    }
}

// Returns the column at which each piece ends, and the number of line ends before it.
fn sums_of(alloc: Global, pieces: &[Piece]) -> Result<Vec<Sum>, AllocError> {
    let mut sums = Vec::with_capacity(alloc, pieces.len().saturating_add(1))?;
    let mut end = 0usize;
    let mut breaks = 0usize;
    for piece in pieces {
        end = end
            .saturating_add(usize::from(piece.gap.blanks))
            .saturating_add(piece.width());
        sums.push(sum_of(end, breaks))?;
        breaks = breaks
            .saturating_add(hard_gap(piece))
            .saturating_add(several_lines(piece));
    }
    sums.push(sum_of(0, breaks))?;
    Ok(sums)
}

// Returns the number of columns from each gap to the next place where the line may end, in reverse order: the first is 0, for the end of the text.
fn tails_of(alloc: Global, pieces: &[Piece]) -> Result<Vec<u32>, AllocError> {
    let mut tails = Vec::with_capacity(alloc, pieces.len().saturating_add(1))?;
    let mut tail = 0usize;
    tails.push(0)?;
    for piece in pieces.iter().rev() {
        let gap = piece.gap;
        tail = if gap.can_break || gap.is_hard || piece.is_comment() {
            0
        } else if piece.kind == PieceKind::LastComma {
            usize::from(gap.blanks).saturating_add(1)
        } else {
            let rest = if piece.has_lines() { 0 } else { tail };
            rest.saturating_add(usize::from(gap.blanks))
                .saturating_add(piece.width())
        };
        tails.push(as_stored(tail))?;
    }
    Ok(tails)
}

impl Measures {
    /// Returns the measures of a layout.
    pub fn of(alloc: Global, layout: &Layout) -> Result<Measures, AllocError> {
        Ok(Measures {
            sums: sums_of(alloc, &layout.pieces)?,
            tails: tails_of(alloc, &layout.pieces)?,
        })
    }

    /// Counts the unconditional line ends again, after other gaps have become hard.
    pub fn count_breaks(&mut self, pieces: &[Piece]) {
        let mut breaks = 0usize;
        for number in 0..self.sums.len() {
            self.sums[number].breaks = as_stored(breaks);
            if let Some(piece) = pieces.get(number) {
                breaks = breaks
                    .saturating_add(hard_gap(piece))
                    .saturating_add(several_lines(piece));
            }
        }
    }

    /// Returns the number of columns from the gap before a piece to the next place where the line may end.
    pub fn tail(&self, piece: usize) -> usize
        ensures { result ≡ tail_at self.now.tails.items piece }
    {
        let count = self.tails.len();
        if piece < count {
            self.tails[count - (piece + 1)] as usize
        } else {
            0
        }
    }

    // Returns the column at which a piece ends, or 0 beyond the last piece.
    fn end(&self, piece: usize) -> usize
        ensures { result ≡ end_at self.now piece }
    {
        end_of(&self.sums, piece)
    }

    // Returns the number of line ends before the gap of a piece, or in the whole text, or 0 beyond it.
    fn breaks(&self, piece: usize) -> usize
        ensures { result ≡ breaks_at self.now piece }
    {
        breaks_of(&self.sums, piece)
    }

    // Returns the width of the pieces from `first` to `last` on one line.
    fn width(&self, pieces: &[Piece], first: usize, last: usize) -> usize
        ensures { result ≡ width_between self.now pieces.now first last }
    {
        let between = self.end(last).saturating_sub(self.end(first));
        between.saturating_add(width_of(pieces, first))
    }

    // Returns the number of unconditional line ends after the gap of `first` and up to the piece `end`.
    fn breaks_inside(&self, pieces: &[Piece], first: usize, end: usize) -> usize
        ensures { result ≡ breaks_between self.now pieces.now first end }
    {
        self.breaks(end)
            .saturating_sub(self.breaks(first))
            .saturating_sub(hard_gap_of(pieces, first))
    }

    /// Returns whether a group fits on the line.
    pub fn fits(&self, pieces: &[Piece], group: &Group, room: Room) -> bool
        ensures { result ≡ fits self.now pieces.now group.now room }
    {
        let width = self.width(pieces, group.first(), group.end().saturating_sub(1));
        self.breaks_inside(pieces, group.first(), group.end()) == 0
            && room.column.saturating_add(width).saturating_add(room.tail) <= room.limit
    }

    // Returns whether the pieces up to the one that opens the target fit on the line.
    fn fits_before(&self, pieces: &[Piece], group: &Group, target: Target, room: Room) -> bool {
        let width = self.width(pieces, group.first(), target.open());
        let hard = hard_gap_of(pieces, target.open());
        let breaks = self.breaks_inside(pieces, group.first(), target.open());
        let is_first = target.open() == group.first();
        (is_first || breaks.saturating_add(hard) == 0)
            && room.column.saturating_add(width) <= room.limit
    }

    // Returns whether the pieces from the one that closes the target on fit on the last line.
    fn fits_after(&self, pieces: &[Piece], group: &Group, target: Target, room: Room) -> bool {
        let close = pieces.get(target.close()).map_or(0, last_width);
        let last = self.end(group.end().saturating_sub(1));
        let behind = last.saturating_sub(self.end(target.close()));
        let before = self.breaks(target.close().saturating_add(1));
        let breaks = self.breaks(group.end()).saturating_sub(before);
        let column = room.indent.saturating_add(close).saturating_add(behind);
        breaks == 0 && column.saturating_add(room.tail) <= room.limit
    }

    /// Returns whether a group fits if its target is broken: the part before the target on the first line, and the part after it on the last one.
    pub fn fits_around(&self, pieces: &[Piece], group: &Group, target: Target, room: Room) -> bool {
        let behind = target.close().saturating_add(1);
        (target.kind != TargetKind::ShortList
            || self.breaks_inside(pieces, target.open(), behind) > 0)
            && self.fits_before(pieces, group, target, room)
            && self.fits_after(pieces, group, target, room)
    }
}

// Returns the characters of the last line of a piece.
fn last_width(piece: &Piece) -> usize {
    piece.last_width().unwrap_or(piece.width())
}
