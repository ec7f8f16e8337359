//! From the tree to pieces and groups, in one walk.

use crate::absorbing::{Offer, absorbs, offer_of, takes_targets};
use crate::comments::{plain_gap, set_gaps};
use crate::describing::{atom_child, child_of, plain_child};
use crate::frame::{Frame, NO_FRAME, has_group, is_on_one_line, names_of, place_in};
use crate::grouping::is_atom;
use crate::layout::{Group, Layout, Target, TargetKind, Targets};
use crate::lines::with_lines;
use crate::piece::{Gap, Piece, PieceKind, as_stored, line_feeds_in};
use crate::spacing::{Child, Spacing, around_text, distant, keeps_distance, spacing_in};
use rnix::ast::BinOpKind;
use rnix::{NodeOrToken, SyntaxElement, SyntaxKind, SyntaxNode, SyntaxToken, TextRange};
use rnix_base::first_binary;
use std::alloc::{AllocError, Global};

// The walk so far.
#[derive(Drop)]
struct Collector {
    alloc: Global,
    layout: Layout,
    frames: Vec<Frame>,
    // The number of elements passed so far.
    passed: usize,
    // The number of elements up to the end of the last string, path or name.
    atom_end: usize,
    // The number of line feeds after the last piece.
    line_feeds: u8,
    // The number of the first piece whose gap is not set yet.
    first_unset: usize,
    // The spacing and the group of the next piece.
    spacing: Spacing,
    group: u32,
    // The kind of the last item.
    last: SyntaxKind,
}

impl Collector {
    fn new(alloc: Global) -> Collector {
        Collector {
            alloc,
            layout: Layout {
                pieces: Vec::new(alloc),
                groups: Vec::new(alloc),
                lines: Vec::new(alloc),
            },
            frames: Vec::new(alloc),
            passed: 0,
            atom_end: 0,
            line_feeds: 0,
            first_unset: 0,
            spacing: around_text(),
            group: 0,
            last: SyntaxKind::NODE_ROOT,
        }
    }

    // Opens a group at the next piece, inside another one.
    fn open_group(&mut self, parent: u32, absorbs: bool) -> Result<u32, AllocError> {
        let number = as_stored(self.layout.groups.len());
        let group = Group::new(self.layout.pieces.len(), parent, absorbs);
        self.layout.groups.push(group)?;
        Ok(number)
    }

    // Closes a group after the last piece.
    fn close_group(&mut self, number: u32, targets: Targets) {
        let number = number as usize;
        let end = self.layout.pieces.len();
        if number < self.layout.groups.len() {
            self.layout.groups[number] = self.layout.groups[number].closed(end, targets);
        }
    }

    // Adds a piece, with the line feeds before it.
    fn add_piece(&mut self, piece: Piece) -> Result<(), AllocError> {
        self.layout
            .pieces
            .push(piece.placed(self.line_feeds, piece.gap))?;
        self.line_feeds = 0;
        Ok(())
    }

    // Sets the gaps up to the last piece.
    fn finish_gaps(&mut self, spacing: Spacing, group: u32) {
        set_gaps(&mut self.layout.pieces, self.first_unset, spacing, group);
        self.first_unset = self.layout.pieces.len();
    }

    // Records the spacing between the next child and the one before it.
    fn note_child(&mut self, child: Child) {
        let top = self.frames.len().saturating_sub(1);
        if top < self.frames.len() {
            let frame = &self.frames[top];
            if let Some(before) = frame.before {
                let wanted = spacing_in(frame, before, child);
                self.group = if wanted.is_inner {
                    frame.inner
                } else {
                    frame.group
                };
                self.spacing = wanted;
            }
            self.frames[top] = self.frames[top].after(child.kind);
        }
    }

    // Records that the last piece is the opening bracket of the innermost node.
    fn note_bracket(&mut self) {
        let top = self.frames.len().saturating_sub(1);
        if top < self.frames.len() {
            self.frames[top].open = as_stored(self.layout.pieces.len().saturating_sub(1));
        }
    }

    // Records the targets of a child as those of the innermost node, if that node may be broken there.
    fn take_targets(&mut self, offer: &Offer) {
        let end = self.layout.pieces.len();
        let top = self.frames.len().saturating_sub(1);
        if top < self.frames.len() && takes_targets(&self.frames[top], offer, end) {
            self.frames[top] = self.frames[top].with_targets(offer);
        }
    }

    // Sets the gaps up to the last piece to those around a text.
    fn finish_first_gaps(&mut self) {
        self.finish_gaps(around_text(), 0);
    }

    // Returns the spacing before an item of a kind.
    fn spacing_before(&self, kind: SyntaxKind) -> Spacing {
        if keeps_distance(self.last, kind) {
            distant(self.spacing)
        } else {
            self.spacing
        }
    }

    // Adds a piece that is not a comment, and sets the gaps up to it.
    fn add_item(&mut self, piece: Piece, kind: SyntaxKind) -> Result<(), AllocError> {
        self.add_piece(piece)?;
        self.finish_gaps(self.spacing_before(kind), self.group);
        self.last = kind;
        Ok(())
    }

    // Adds a token or a name: a piece whose gap is set at once, if no comment precedes it.
    fn add_word(&mut self, range: TextRange, kind: SyntaxKind) -> Result<(), AllocError> {
        let word = Piece::of_word(range.start(), range.end());
        if self.first_unset < self.layout.pieces.len() {
            return self.add_item(word, kind);
        }
        let line_feeds = self.line_feeds;
        let gap = plain_gap(self.spacing_before(kind), self.group, line_feeds);
        self.layout.pieces.push(word.placed(line_feeds, gap))?;
        self.line_feeds = 0;
        self.first_unset = self.layout.pieces.len();
        self.last = kind;
        Ok(())
    }

    // Adds a comma right after the last item, before the comments that follow it.
    fn add_comma(&mut self, kind: PieceKind, group: u32) -> Result<(), AllocError> {
        let number = self.first_unset;
        let before = self.layout.pieces.get(number.saturating_sub(1));
        let start = before.map_or(0, |piece| piece.end());
        let is_apart = keeps_distance(self.last, SyntaxKind::TOKEN_COMMA);
        let gap = Gap {
            group,
            blanks: u8::from(is_apart),
            ..Gap::nothing()
        };
        let comma = Piece::of_comma(start, kind, gap);
        if number <= self.layout.pieces.len() {
            self.layout.pieces.insert(number, comma)?;
            self.first_unset = number.saturating_add(1);
        }
        self.last = SyntaxKind::TOKEN_COMMA;
        Ok(())
    }

    // Adds a comma of the old text. Comments that precede it follow it in the new text, with the line feeds after them.
    fn enter_comma(&mut self, range: TextRange) -> Result<(), AllocError> {
        if self.first_unset < self.layout.pieces.len() {
            self.add_comma(PieceKind::MovedComma, self.group)
        } else {
            self.add_word(range, SyntaxKind::TOKEN_COMMA)
        }
    }

    // Before the closing brace of a pattern, adds a comma after its last argument, unless there is one.
    fn end_arguments(&mut self) -> Result<(), AllocError> {
        let frame = self.frames.last().copied().unwrap_or(NO_FRAME);
        let is_open = frame.kind == SyntaxKind::NODE_PATTERN
            && frame.before == Some(SyntaxKind::NODE_PAT_ENTRY);
        if is_open {
            self.add_comma(PieceKind::LastComma, frame.group)
        } else {
            Ok(())
        }
    }

    // Enters a string or a path, which is one piece.
    fn enter_string(&mut self, node: &SyntaxNode<'_>) -> Result<(), AllocError> {
        let number = self.layout.pieces.len();
        let text = Piece::new(node.text_range().start(), node.text());
        let piece = with_lines(self.alloc, node, text, &mut self.layout.lines)?;
        self.add_item(piece, node.kind())?;
        if piece.has_lines() && node.kind() == SyntaxKind::NODE_STRING {
            let target = Target::new(number, number, TargetKind::Block);
            self.take_targets(&Offer::of_string(target));
        }
        Ok(())
    }

    // Enters a string, a path or a name, which is one piece.
    fn enter_atom(&mut self, node: &SyntaxNode<'_>) -> Result<(), AllocError> {
        self.atom_end = self.end_of(node);
        let kind = node.kind();
        self.note_child(atom_child(node));
        if kind == SyntaxKind::NODE_IDENT {
            self.add_word(node.text_range(), kind)
        } else {
            self.enter_string(node)
        }
    }

    // Returns the number of elements up to the end of the node that the walk enters.
    fn end_of(&self, node: &SyntaxNode<'_>) -> usize {
        self.passed.saturating_add(node.inside_count())
    }

    // Enters a node that is not one piece.
    fn enter_inner(&mut self, node: &SyntaxNode<'_>) -> Result<(), AllocError> {
        let kind = node.kind();
        let operator = if kind == SyntaxKind::NODE_BIN_OP {
            first_binary(node)
        } else {
            None
        };
        let parent = self.frames.last().copied().unwrap_or(NO_FRAME);
        let place = place_in(&parent);
        let is_own = has_group(&parent, kind, operator);
        let child = child_of(node, place);
        self.note_child(child);
        let group = if is_own {
            self.open_group(parent.group, absorbs(kind, place))?
        } else {
            parent.group
        };
        let inner = if kind == SyntaxKind::NODE_IF_ELSE {
            self.open_group(group, false)?
        } else {
            group
        };
        let frame = Frame {
            operator,
            place,
            open: as_stored(self.layout.pieces.len()),
            group,
            inner,
            is_own,
            names: names_of(&parent, child),
            is_plain: is_on_one_line(&parent, child, place),
            is_hung: child.is_hung || (parent.is_hung && !is_own),
            end: self.end_of(node),
            ..Frame::of(child)
        };
        self.frames.push(frame)?;
        Ok(())
    }

    // Enters a node.
    fn enter_node(&mut self, node: &SyntaxNode<'_>) -> Result<(), AllocError> {
        if is_atom(node.kind()) {
            self.enter_atom(node)
        } else {
            self.enter_inner(node)
        }
    }

    // Closes the group of the innermost node's condition.
    fn close_condition(&mut self) {
        let inner = self.frames.last().map_or(0, |frame| frame.inner);
        self.close_group(inner, Targets::NONE);
    }

    // Enters a comment.
    fn enter_comment(&mut self, token: &SyntaxToken<'_>) -> Result<(), AllocError> {
        self.add_piece(Piece::of_comment(token.text_range().start(), token.text()))
    }

    // Enters a token.
    fn enter_token(&mut self, token: &SyntaxToken<'_>) -> Result<(), AllocError> {
        let kind = token.kind();
        match kind {
            SyntaxKind::TOKEN_WHITESPACE => self.pass_space(token),
            SyntaxKind::TOKEN_COMMENT => self.enter_comment(token)?,
            _ => self.enter_item(token.text_range(), kind)?,
        }
        Ok(())
    }

    // Passes white space.
    fn pass_space(&mut self, token: &SyntaxToken<'_>) {
        self.line_feeds = self.line_feeds.max(line_feeds_in(token.text()));
    }

    // Enters a token that is no trivia.
    fn enter_item(&mut self, range: TextRange, kind: SyntaxKind) -> Result<(), AllocError> {
        if kind == SyntaxKind::TOKEN_R_BRACE {
            self.end_arguments()?;
        }
        self.note_child(plain_child(kind));
        match kind {
            SyntaxKind::TOKEN_COMMA => self.enter_comma(range)?,
            _ => self.add_word(range, kind)?,
        }
        match kind {
            SyntaxKind::TOKEN_THEN => self.close_condition(),
            SyntaxKind::TOKEN_L_BRACE => self.note_bracket(),
            _ => {}
        }
        Ok(())
    }

    // Leaves a node.
    fn leave_node(&mut self) {
        if let Some(frame) = self.frames.pop() {
            let end = self.layout.pieces.len();
            if frame.is_own {
                self.close_group(frame.group, frame.targets);
            }
            self.take_targets(&offer_of(&frame, end));
        }
    }

    // Returns whether the innermost node ends before the element with a number.
    fn ends_before(&self, number: usize) -> bool {
        self.frames.last().is_some_and(|frame| frame.end <= number)
    }

    // Leaves the nodes that end before the element with a number.
    fn leave_nodes(&mut self, number: usize) {
        for _ in 0..self.frames.len() {
            if !self.ends_before(number) {
                break;
            }
            self.leave_node();
        }
    }

    // Passes a node or a token, unless it is inside a string, a path or a name.
    fn pass(&mut self, element: &SyntaxElement<'_>) -> Result<(), AllocError> {
        let number = self.passed;
        self.passed = number.saturating_add(1);
        if number < self.atom_end {
            return Ok(());
        }
        if self.ends_before(number) {
            self.leave_nodes(number);
        }
        match element {
            NodeOrToken::Node(node) => self.enter_node(node),
            NodeOrToken::Token(token) => self.enter_token(token),
        }
    }

    // Returns the layout at the end of the walk. Comments at the end of the text stay on the line of the last piece or have lines of their own.
    fn finish(mut self) -> Layout {
        self.leave_nodes(usize::MAX);
        self.finish_first_gaps();
        self.layout
    }
}

/// Returns the pieces and groups of a tree without errors.
pub fn layout_of(alloc: Global, root: &SyntaxNode<'_>) -> Result<Layout, AllocError> {
    let mut collector = Collector::new(alloc);
    for element in root.descendants_with_tokens() {
        collector.pass(&element)?;
    }
    Ok(collector.finish())
}
