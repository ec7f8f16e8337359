//! Patterns of names and paths, as the lines of a `.gitignore` have them.

use crate::byte_classes::ByteClass;
use std::alloc::{AllocError, Global};

// A part of a pattern, and what it matches. No part but the last two matches a `/`, unless it is that byte.
#[derive(Drop)]
enum Part {
    // This byte.
    Byte(u8),
    // `?`: one byte.
    AnyByte,
    // `[..]`: one byte of a class.
    Class(ByteClass),
    // `*`: any bytes.
    AnyBytes,
    // `**/`: any folders, each with its `/`.
    AnyFolders,
    // `**` after the last `/`: one byte or more.
    AllBelow,
}

/// A pattern.
#[derive(Drop)]
pub struct Glob {
    parts: Vec<Part>,
    // Whether the pattern is broken, and so matches nothing: a class is, or a `\` is the last byte.
    is_broken: bool,
}

// Returns the number of bytes before the first one that has a meaning in patterns.
fn plain_length(text: &[u8]) -> usize {
    let first = text
        .iter()
        .position(|byte| matches!(*byte, b'*' | b'?' | b'[' | b'\\'));
    first.unwrap_or(text.len())
}

impl Glob {
    /// Returns the pattern of a text, in which no `/` is the first or the last byte: of names, or of paths.
    pub fn new(alloc: Global, text: &[u8], is_of_names: bool) -> Result<Glob, AllocError> {
        let mut glob = Glob {
            parts: Vec::new(alloc),
            is_broken: false,
        };
        let start = if is_of_names { 0 } else { plain_length(text) };
        let mut at: usize = 0;
        for _part in 0..text.len() {
            if at >= text.len() || glob.is_broken {
                break;
            }
            at = glob.add_part(alloc, text, at, start)?;
        }
        Ok(glob)
    }

    /// Returns whether the pattern is broken, and so matches nothing.
    pub fn is_broken(&self) -> bool {
        self.is_broken
    }

    // Adds the part that begins at an offset, and returns the offset after it. Asterisks at the offset `start` count as if nothing preceded them.
    fn add_part(
        &mut self,
        alloc: Global,
        text: &[u8],
        at: usize,
        start: usize,
    ) -> Result<usize, AllocError> {
        let next = at.saturating_add(1);
        match text.get(at) {
            Some(b'?') => self.parts.push(Part::AnyByte)?,
            Some(b'*') => return self.add_stars(text, at, start),
            Some(b'[') => return self.add_class(alloc, text, next),
            Some(b'\\') => match text.get(next) {
                Some(byte) => {
                    self.parts.push(Part::Byte(*byte))?;
                    return Ok(next.saturating_add(1));
                }
                None => self.is_broken = true,
            },
            Some(byte) => self.parts.push(Part::Byte(*byte))?,
            None => {}
        }
        Ok(next)
    }

    // Adds the part of the asterisks that begin at an offset, and returns the offset after it. Two or more mean folders where they are a whole name.
    fn add_stars(&mut self, text: &[u8], at: usize, start: usize) -> Result<usize, AllocError> {
        let mut end = at;
        for _star in at..text.len() {
            if text.get(end) != Some(&b'*') {
                break;
            }
            end = end.saturating_add(1);
        }
        let is_first = at == start || text.get(at.saturating_sub(1)) == Some(&b'/');
        let is_whole = is_first && end.saturating_sub(at) > 1;
        if is_whole && end == text.len() {
            self.parts.push(Part::AllBelow)?;
        } else if is_whole && text.get(end) == Some(&b'/') {
            self.parts.push(Part::AnyFolders)?;
            return Ok(end.saturating_add(1));
        } else {
            self.parts.push(Part::AnyBytes)?;
        }
        Ok(end)
    }

    // Adds the class whose first byte has an offset, and returns the offset after it.
    fn add_class(&mut self, alloc: Global, text: &[u8], at: usize) -> Result<usize, AllocError> {
        let Some((class, end)) = ByteClass::read(alloc, text, at)? else {
            self.is_broken = true;
            return Ok(text.len());
        };
        self.parts.push(Part::Class(class))?;
        Ok(end)
    }

    // Marks a position as reached, and those after it that are reached with no more bytes.
    fn enter(&self, position: usize, reached: &mut [bool]) {
        for at in position..reached.len() {
            if let Some(mark) = reached.get_mut(at) {
                *mark = true;
            }
            if !matches!(self.parts.get(at), Some(Part::AnyBytes | Part::AnyFolders)) {
                return;
            }
        }
    }

    // Marks the positions that are reached from one by a byte.
    fn advance(&self, position: usize, byte: u8, reached: &mut [bool]) {
        let next = position.saturating_add(1);
        let is_name_byte = byte != b'/';
        match self.parts.get(position) {
            Some(Part::Byte(own)) if *own == byte => self.enter(next, reached),
            Some(Part::AnyByte) if is_name_byte => self.enter(next, reached),
            Some(Part::Class(class)) if is_name_byte && class.contains(byte) => {
                self.enter(next, reached)
            }
            Some(Part::AnyBytes) if is_name_byte => self.enter(position, reached),
            Some(Part::AnyFolders | Part::AllBelow) => {
                if let Some(mark) = reached.get_mut(position) {
                    *mark = true;
                }
                if !is_name_byte || matches!(self.parts.get(position), Some(Part::AllBelow)) {
                    self.enter(next, reached);
                }
            }
            _ => {}
        }
    }

    // Marks the positions that are reached from those in `from` by a byte, and returns whether there is one.
    fn advance_all(&self, from: &[bool], byte: u8, reached: &mut [bool]) -> bool {
        let mut is_any = false;
        for position in 0..from.len() {
            if from.get(position) == Some(&true) {
                is_any = true;
                self.advance(position, byte, reached);
            }
        }
        is_any
    }

    /// Returns whether the pattern matches a whole name or path. Takes time in proportion to the lengths of both, multiplied.
    pub fn matches(&self, alloc: Global, path: &str) -> Result<bool, AllocError> {
        let count = self.parts.len().saturating_add(1);
        let mut from = Vec::new(alloc);
        from.resize(count, false)?;
        self.enter(0, &mut from);
        for byte in path.as_bytes() {
            let mut reached = Vec::new(alloc);
            reached.resize(count, false)?;
            if !self.advance_all(&from, *byte, &mut reached) {
                return Ok(false);
            }
            from = reached;
        }
        Ok(!self.is_broken && from.last() == Some(&true))
    }
}
