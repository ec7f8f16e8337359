//! Deciding which errors follow from an earlier one.

ghost use Rattle.std.specs.Prelude.{◌≡◌, ◌+◌, ◌^◌, ◌<◌, ◌≤◌, [], true, Some, not, ◌||◌, ◌&&◌, is_none, is_some, option_map, map};
ghost use Rattle.rnix_green.specs.Range.{bounds_of};
ghost use Rattle.rnix_green.specs.Relatives.{parent_of};
ghost use Rattle.rnix_green.specs.Tree.{item_of};
ghost use Rattle.rnix_grammar.specs.Fault.{fault_of};
ghost use Rattle.rnix_grammar.specs.Ranges.{range_in};
ghost use Rattle.nix_diagnostics.specs.Locations.{location_of};
ghost use Rattle.nix_diagnostics.specs.Brackets.{has_range, closes_around, depth_after, skips_brackets};
ghost use Rattle.nix_diagnostics.specs.TokenErrors.{is_token_error};
ghost use Rattle.nix_diagnostics.specs.Independence.{larger, semicolons_of};
ghost use Rattle.nix_diagnostics.specs.FaultNodes.{error_node, is_group, range_if_group, group_around, are_same_range};
ghost use Rattle.nix_diagnostics.specs.Following.{is_extra, skips_if};
ghost use Rattle.nix_diagnostics.specs.Known.{loses_in, is_independent_in, is_joined_in, follows_in, IsMatching, FitsErrors, HasReached, IsNextResult};

use crate::brackets::Matching;
use crate::ends::{ends_closed, ends_in_string, is_from, lost_from};
use crate::near::are_close;
use crate::openings::{closes, opens};
use crate::semicolons::{Semicolon, ends_between, first_since};
use crate::token_errors::is_token_error;
use SyntaxKind::*;
use rnix::{NodeOrToken, ParseError, SyntaxKind, SyntaxNode, SyntaxToken, TextRange};

/// The state after some errors, from which the next one is judged.
#[derive(Drop)]
pub struct Folding {
    // The `;` of the entries and `inherit`s, in order.
    semicolons: Vec<Semicolon>,
    // The largest end of the token errors so far, and the index of the first `;` that does not start before it.
    reach: usize,
    passed: usize,
    // Whether the text ends inside a string, and whether it ends with a token that closes something.
    in_string: bool,
    ends_closed: bool,
    // Whether an error node skipped brackets.
    is_unbalanced: bool,
    // The start of what is never closed, in a text that ends too early: later errors follow from it.
    lost_from: Option<usize>,
    // The first token that closes nothing.
    extra: Option<TextRange>,
    // The end of the last token other than trivia.
    end: usize,
    // The end of the last token error.
    last: Option<usize>,
    // The range of the list, pattern, .. around that error.
    group: Option<TextRange>,
    // Whether the parser lost track, so that later errors may follow from that.
    is_lost: bool,
}

// Returns whether one mistake often leads to several errors in a node of the kind.
fn is_group(kind: SyntaxKind) -> bool
    ensures { result ≡ is_group kind }
{
    matches!(
        kind,
        NODE_LIST | NODE_PATTERN | NODE_STRING | NODE_DYNAMIC | NODE_INHERIT | NODE_ATTRPATH_VALUE
    )
}

// Returns the range of the list, pattern, string or entry that is a node's parent.
fn group(node: &SyntaxNode<'_>) -> Option<TextRange>
    ensures { option_map bounds_of result ≡ range_if_group (parent_of node.now) }
{
    let parent = node.parent()?;
    if is_group(parent.kind()) {
        Some(parent.text_range())
    } else {
        None
    }
}

// Returns the range of the list, pattern, string or entry around an error's node, if it has one.
fn group_of(node: &Option<SyntaxNode<'_>>) -> Option<TextRange>
    ensures { option_map bounds_of result ≡ group_around node.now }
{
    match node {
        Some(node) => group(node),
        None => None,
    }
}

// Returns whether both ranges are given and equal.
fn are_same_range(own: Option<TextRange>, last: Option<TextRange>) -> bool
    ensures { result ≡ are_same_range (option_map bounds_of own) (option_map bounds_of last) }
{
    match (own, last) {
        (Some(own), Some(last)) => own.start() == last.start() && own.end() == last.end(),
        _ => false,
    }
}

// Returns the larger of two numbers.
fn larger(one: usize, two: usize) -> usize
    ensures { result ≡ larger one two }
{
    if one < two { two } else { one }
}

// Returns whether a range is given and is the token's.
fn has_range(range: Option<TextRange>, token: &SyntaxToken<'_>) -> bool
    ensures { result ≡ has_range (option_map bounds_of range) token.now }
{
    let own = token.text_range();
    match range {
        Some(range) => range.start() == own.start() && range.end() == own.end(),
        None => false,
    }
}

// Returns the number of open tokens after a token of the kind. `then` closes `if`, and opens what `else` closes.
fn depth_after(depth: usize, kind: SyntaxKind) -> usize
    requires { depth + 1 < 2 ^ 64 }
    ensures depth { result ≡ depth_after depth kind }
    ensures most { result ≤ depth + 1 }
{
    let rest = if closes(kind) {
        depth.saturating_sub(1)
    } else {
        depth
    };
    if opens(kind) { rest + 1 } else { rest }
}

// Returns whether an error has no range.
fn has_no_range(error: &ParseError) -> bool
    ensures { result ≡ is_none (range_in (fault_of error.now)) }
{
    match error.range() {
        Some(_range) => false,
        None => true,
    }
}

// Returns whether an error says that tokens follow the expression.
fn is_extra(error: &ParseError) -> bool
    ensures { result ≡ is_extra (fault_of error.now) }
{
    matches!(error, ParseError::UnexpectedExtra(_))
}

impl Folding {
    /// Returns the state before the first error of a text, given its matched brackets and the `;` of its entries.
    pub fn new(
        root: &SyntaxNode<'_>,
        errors: &[ParseError],
        matching: &Matching,
        semicolons: Vec<Semicolon>,
    ) -> Folding
        requires matching { IsMatching root.now matching.now }
        requires semicolons { semicolons.items ≡ semicolons_of root.now }
        ensures { FitsErrors root.now (map fault_of errors.now) [] result }
    {
        Folding {
            passed: first_since(semicolons.as_slice(), 0, 0),
            semicolons,
            reach: 0,
            in_string: ends_in_string(matching.last),
            ends_closed: ends_closed(matching.last),
            is_unbalanced: false,
            lost_from: lost_from(root, errors, matching.end),
            extra: matching.mismatch.extra,
            end: matching.end,
            last: None,
            group: None,
            is_lost: false,
        }
    }

    // Returns whether a token closes something that was opened before a walk, where `depth` is the number of tokens that the walk opened.
    fn closes_around(&self, depth: usize, token: &SyntaxToken<'_>) -> bool
        ensures { result ≡ closes_around (option_map bounds_of self.now.extra) depth token.now }
    {
        closes(token.kind()) && depth == 0 && !has_range(self.extra, token)
    }

    // Returns whether the tokens of a node close something that was opened before it, or leave something open.
    fn skips_brackets(&self, node: &SyntaxNode<'_>) -> bool
        ensures { result ≡ skips_brackets (option_map bounds_of self.now.extra) node.now }
    {
        let mut depth: usize = 0;
        for element in node.descendants_with_tokens() {
            if let NodeOrToken::Token(token) = element {
                if self.closes_around(depth, &token) {
                    return true;
                }
                depth = depth_after(depth, token.kind());
            }
        }
        depth > 0
    }

    // Returns whether an error has a node whose tokens close something that was opened before it, or leave something open.
    fn skips_if(&self, node: &Option<SyntaxNode<'_>>) -> bool
        ensures { result ≡ skips_if (option_map bounds_of self.now.extra) node.now }
    {
        match node {
            Some(node) => self.skips_brackets(node),
            None => false,
        }
    }

    // Returns whether the parser loses track at an error. `skips` says whether its node skips brackets.
    fn loses(&self, error: &ParseError, skips: bool, location: TextRange) -> bool
        ensures { result ≡ loses_in self.now (fault_of error.now) skips location }
    {
        has_no_range(error)
            || self.end <= location.end()
            || is_from(self.lost_from, location.start())
            || skips
    }

    // Returns whether the parser has lost track after an error: at this error, or before it if the error is not independent of the earlier ones.
    fn is_lost_at(
        &self,
        is_independent: bool,
        error: &ParseError,
        skips: bool,
        location: TextRange,
    ) -> bool
        ensures { result ≡ ((self.now.is_lost && not is_independent) || loses_in self.now (fault_of error.now) skips location) }
    {
        self.is_lost && !is_independent || self.loses(error, skips, location)
    }

    // Returns whether brackets were skipped at an error or before it. `skips` says whether its node skips some.
    fn is_unbalanced_at(&self, skips: bool) -> bool
        ensures { result ≡ (self.now.is_unbalanced || skips) }
    {
        self.is_unbalanced || skips
    }

    // Returns whether an error is independent of the earlier ones: between them an entry ends, in a set or `let` that starts before their end.
    fn is_independent(&self, location: TextRange) -> bool
        ensures { result ≡ is_independent_in self.now location }
    {
        ends_between(
            self.semicolons.as_slice(),
            self.passed,
            self.reach,
            location.start(),
        )
    }

    // Returns whether an error that is not independent of the earlier ones shares their diagnostic: the parser has lost track, or the error is in the same
    // list, pattern, .. as the last one, or near its end `last`.
    fn is_joined(
        &self,
        root: &SyntaxNode<'_>,
        group: Option<TextRange>,
        last: usize,
        location: TextRange,
    ) -> bool
        requires { self.now.last ≡ Some last }
        ensures { result ≡ is_joined_in root.now self.now group location }
    {
        if self.is_lost || are_same_range(group, self.group) {
            return true;
        }
        are_close(root.text().as_bytes(), last, location.start())
    }

    // Returns whether an error follows from the earlier ones. `is_independent` says whether it is independent of them.
    fn follows(
        &self,
        root: &SyntaxNode<'_>,
        is_independent: bool,
        group: Option<TextRange>,
        location: TextRange,
    ) -> bool
        ensures { result ≡ follows_in root.now self.now is_independent group location }
    {
        let Some(last) = self.last else {
            return false;
        };
        if self.in_string {
            return true;
        }
        if is_independent {
            return self.is_unbalanced && self.ends_closed && self.end <= location.end();
        }
        self.is_joined(root, group, last, location)
    }

    // Returns whether the text ends inside a string, and there was a token error.
    fn is_inside(&self) -> bool
        ensures { result ≡ (self.now.in_string && is_some self.now.last) }
    {
        self.in_string && self.last.is_some()
    }

    // Takes the end of an error into account.
    fn reach_to(&mut self, end: usize)
        ensures { HasReached self.old self.new end }
    {
        self.reach = larger(self.reach, end);
        self.passed = first_since(self.semicolons.as_slice(), self.passed, self.reach);
    }

    // Adds a token error, and returns whether it follows from earlier errors.
    fn add_token_error(
        &mut self,
        root: &SyntaxNode<'_>,
        error: &ParseError,
        node: &Option<SyntaxNode<'_>>,
        location: TextRange,
    ) -> bool
        requires token_error { is_token_error (fault_of error.now) ≡ true }
        requires location { bounds_of location ≡ location_of root.now (fault_of error.now) }
        requires node { node.now ≡ error_node root.now (fault_of error.now) }
        ensures { IsNextResult root.now (fault_of error.now) self.old self.new result }
    {
        let group = group_of(node);
        let is_independent = self.is_independent(location);
        let follows = self.follows(root, is_independent, group, location);
        let skips = self.skips_if(node);
        let is_lost = self.is_lost_at(is_independent, error, skips, location);
        let is_unbalanced = self.is_unbalanced_at(skips);
        let end = location.end();
        self.is_lost = is_lost;
        self.is_unbalanced = is_unbalanced;
        self.last = Some(end);
        self.group = group;
        self.reach_to(end);
        follows
    }

    /// Adds an error, with its error node and the location where it is shown. Returns whether it follows from earlier errors.
    pub fn folds(
        &mut self,
        root: &SyntaxNode<'_>,
        error: &ParseError,
        node: &Option<SyntaxNode<'_>>,
        location: TextRange,
    ) -> bool
        requires location { bounds_of location ≡ location_of root.now (fault_of error.now) }
        requires node { node.now ≡ error_node root.now (fault_of error.now) }
        ensures { IsNextResult root.now (fault_of error.now) self.old self.new result }
    {
        if is_token_error(error) {
            self.add_token_error(root, error, node, location)
        } else if is_extra(error) {
            self.last.is_some()
        } else {
            self.is_inside()
        }
    }
}
