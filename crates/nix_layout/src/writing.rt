//! Writes the pieces and the gaps between them.

use crate::layout::Layout;
use crate::line_ends::line_end_of;
use crate::modes::{LineState, MOST_BLANKS, Modes};
use crate::piece::{Gap, MovedLines, Piece, PieceKind, short_contents};
use std::alloc::{AllocError, Global};

// The spaces at the start of a line.
const BLANKS: &str =
    "                                                                                ";

/// The text of a layout.
#[derive(Drop)]
pub struct Output {
    pub text: String,
    /// The line end.
    pub line_end: &'static str,
    /// How the groups are written.
    pub modes: Modes,
}

// The state while a layout is written.
#[derive(Drop)]
struct Writer<'a> {
    text: &'a str,
    layout: &'a Layout,
    modes: Modes,
    made: String,
    // The line end, and whether the last piece is a comment with `#` of the old text, which has its own carriage return.
    line_end: &'static str,
    follows_comment: bool,
    // The line that is being written.
    line_state: LineState,
}

impl<'a> Writer<'a> {
    // Ends the line after the last piece.
    fn push_line_end(&mut self) -> Result<(), AllocError> {
        let end = if self.follows_comment {
            "\n"
        } else {
            self.line_end
        };
        self.made.push_str(end)
    }

    // Ends the line, and begins the next one.
    fn end_line(&mut self, gap: Gap) -> Result<(), AllocError> {
        self.push_line_end()?;
        if gap.has_empty_line {
            self.made.push_str(self.line_end)?;
        }
        let indent = self.modes.indent_after(gap);
        self.made.push_str(BLANKS.get(..indent).unwrap_or(BLANKS))?;
        self.line_state = LineState {
            column: indent,
            indent,
        };
        Ok(())
    }

    // Writes the gap before a piece.
    fn write_gap(&mut self, gap: Gap) -> Result<(), AllocError> {
        if self.modes.ends_line(gap) {
            return self.end_line(gap);
        }
        if gap.blanks > 0 {
            self.made.push(' ')?;
            self.line_state.column = self.line_state.column.saturating_add(1);
        }
        Ok(())
    }

    // Copies the old text from an offset up to another one.
    fn copy(&mut self, start: usize, end: usize) -> Result<(), AllocError> {
        self.made.push_str(self.text.get(start..end).unwrap_or(""))?;
        Ok(())
    }

    // Writes spaces.
    fn write_blanks(&mut self, count: usize) -> Result<(), AllocError> {
        for _ in 0..count / MOST_BLANKS {
            self.made.push_str(BLANKS)?;
        }
        self.made
            .push_str(BLANKS.get(..count % MOST_BLANKS).unwrap_or(""))
    }

    // Copies a string, replacing the spaces at the start of its lines.
    fn write_lines(&mut self, piece: &Piece, moved_lines: MovedLines) -> Result<(), AllocError> {
        let mut start = piece.start();
        for number in moved_lines.first..moved_lines.end {
            if let Some(line) = self.layout.lines.get(number).copied() {
                self.copy(start, line.start)?;
                self.write_blanks(line.indent(self.line_state.indent))?;
                start = line.end_of_blanks();
            }
        }
        self.copy(start, piece.end())
    }

    // Returns the column after a piece.
    fn column_after(&self, piece: &Piece) -> usize {
        match (piece.last_width(), piece.moved_lines()) {
            (Some(width), Some(moved_lines)) if moved_lines.has_last => {
                self.line_state.indent.saturating_add(width)
            }
            (Some(width), _) => width,
            (None, _) => self.line_state.column.saturating_add(piece.width()),
        }
    }

    // Writes a comment in `/* */` as one with `#` if the line ends after it, or else copies it.
    fn write_short_comment(&mut self, piece: &Piece, number: usize) -> Result<(), AllocError> {
        let comment = self.text.get(piece.start()..piece.end()).unwrap_or("");
        match short_contents(comment) {
            Some(contents) if self.modes.ends_line_after(&self.layout.pieces, number) => {
                self.made.push_str("# ")?;
                self.made.push_str(contents)
            }
            _ => self.made.push_str(comment),
        }
    }

    // Copies a token, a string, a path or a comment.
    fn copy_piece(&mut self, piece: &Piece) -> Result<(), AllocError> {
        match piece.moved_lines() {
            Some(moved_lines) => self.write_lines(piece, moved_lines),
            None => self.copy(piece.start(), piece.end()),
        }
    }

    // Writes a piece.
    fn write_piece(&mut self, piece: &Piece, number: usize) -> Result<(), AllocError> {
        match piece.kind {
            PieceKind::ShortComment => self.write_short_comment(piece, number)?,
            PieceKind::MovedComma | PieceKind::LastComma => self.made.push(',')?,
            _ => self.copy_piece(piece)?,
        }
        self.line_state.column = self.column_after(piece);
        self.follows_comment = piece.ends_line();
        Ok(())
    }

    // Returns whether a piece is written: a last comma only if its group is broken.
    fn is_written(&self, piece: &Piece) -> bool {
        piece.kind != PieceKind::LastComma || self.modes.is_broken(piece.gap.group)
    }

    // Writes all pieces.
    fn write(mut self) -> Result<Output, AllocError> {
        let layout = self.layout;
        for (number, piece) in layout.pieces.iter().enumerate() {
            if !self.is_written(piece) {
                continue;
            }
            if number > 0 {
                self.write_gap(piece.gap)?;
            }
            let line_state = self.line_state;
            self.modes.open(layout, number, line_state)?;
            self.write_piece(piece, number)?;
        }
        if !layout.pieces.is_empty() {
            self.push_line_end()?;
        }
        Ok(Output {
            text: self.made,
            line_end: self.line_end,
            modes: self.modes,
        })
    }
}

/// Returns the text of a layout: each group is on one line if it fits.
pub fn written(alloc: Global, text: &str, layout: &Layout) -> Result<Output, AllocError> {
    let writer = Writer {
        text,
        layout,
        modes: Modes::of(alloc, layout)?,
        made: String::with_capacity(alloc, text.len())?,
        line_end: line_end_of(text, &layout.pieces),
        follows_comment: false,
        line_state: LineState {
            column: 0,
            indent: 0,
        },
    };
    writer.write()
}
