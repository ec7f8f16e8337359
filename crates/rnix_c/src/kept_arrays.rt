//! The tree of a text, from the arrays that begin with its elements.

ghost use Rattle.std.specs.Prelude.{◌≡◌, ◌<◌, ◌^◌, [], ◌∷◌, ◌++◌, length, map, IfOk, IfErr, OnOk, IsUtf8};
ghost use Rattle.rnix_kinds.specs.declared.kinds.SyntaxKind.{SyntaxKind};
ghost use Rattle.rnix_kinds.specs.declared.kinds.SyntaxKind.TheVariants.{NODE_ROOT};
ghost use Rattle.rnix_kinds.specs.SyntaxKind.{discriminant_of};
ghost use Rattle.rnix_kinds.specs.Lexical.Tokens.{tokens_of};
ghost use Rattle.rnix_green.specs.Kept.{kept_of};
ghost use Rattle.rnix_green.specs.Forest.{text_of};
ghost use Rattle.rnix_green.specs.Tree.{Tree, items_of, forest_of};
ghost use Rattle.rnix_grammar.specs.Parsed.{IsParsed};
ghost use Rattle.rnix_reparse.specs.ParsedText.{IsParsedText};
ghost use Rattle.rnix_c.specs.Answers.{IsRefused};
ghost use Rattle.rnix_c.specs.KeptArrays.{HoldTree, BeginWithTree, HoldParse, count_by, kept_parent, kept_size, kept_by};

use crate::answers::{NO_MEMORY, checked, parse_of};
use crate::compact::{NO_PARENT, RnixLink, RnixRange};
use rnix::{GreenNode, Parse, SyntaxKind};
use rnix_green::ElementList;
use std::alloc::{AllocError, Global};

// Returns the kind with a number, or some kind if no kind has the number.
fn kind_of(number: u16) -> SyntaxKind
    ensures { (kind : SyntaxKind) → discriminant_of kind ≡ number → result ≡ kind }
{
    match SyntaxKind::from_raw(number) {
        Some(kind) => kind,
        None => SyntaxKind::TOKEN_ERROR,
    }
}

// Returns the number of a parent, or 0 for the root.
fn kept_parent(parent: u32) -> usize
    ensures { result ≡ kept_parent parent }
{
    if parent == NO_PARENT {
        0
    } else {
        parent as usize
    }
}

// Returns the size of an element, which is 0 for a token.
fn kept_size(link: RnixLink) -> usize
    ensures { result ≡ kept_size link.is_token link.inside }
{
    if link.is_token == 0 {
        link.inside as usize + 1
    } else {
        0
    }
}

// Adds the element that a range and a link describe.
fn add(list: &mut ElementList, range: RnixRange, link: RnixLink) -> Result<(), AllocError>
    ensures { OnOk result ((kind : SyntaxKind) → discriminant_of kind ≡ link.kind → list.new ≡ list.old ++ (kept_by kind range link ∷ [])) }
{
    let (parent, size) = (kept_parent(link.parent), kept_size(link));
    list.push(kind_of(link.kind), range.start as usize, parent, size)
}

// Returns the elements in the arrays.
fn elements_of(
    alloc: Global,
    ranges: &[RnixRange],
    links: &[RnixLink],
) -> Result<ElementList, AllocError>
    ensures { IfOk result (λ list. (tree : Tree) → HoldTree ranges.now links.now tree → list ≡ map kept_of (items_of tree)) }
{
    let count = ranges.len().min(links.len());
    let mut list = ElementList::with_capacity(alloc, count)?;
    for number in 0..count {
        add(&mut list, ranges[number], links[number])?;
    }
    Ok(list)
}

// Returns the number of elements by the first link.
fn element_count(links: &[RnixLink]) -> usize
    ensures { result ≡ count_by links.now }
{
    match links.first() {
        Some(link) => link.inside as usize + 1,
        None => 0,
    }
}

// Returns the elements that the arrays begin with.
fn whole<'a>(ranges: &'a [RnixRange], links: &'a [RnixLink]) -> (&'a [RnixRange], &'a [RnixLink])
    ensures { (tree : Tree) → BeginWithTree ranges.now links.now tree → HoldTree result.0.now result.1.now tree }
{
    let count = element_count(links).min(ranges.len()).min(links.len());
    (&ranges[..count], &links[..count])
}

// Returns the elements of the tree that the arrays begin with.
fn kept_elements(
    alloc: Global,
    ranges: &[RnixRange],
    links: &[RnixLink],
) -> Result<ElementList, AllocError>
    ensures { IfOk result (λ list. (tree : Tree) → BeginWithTree ranges.now links.now tree → list ≡ map kept_of (items_of tree)) }
{
    let (ranges, links) = whole(ranges, links);
    let list = elements_of(alloc, ranges, links)?;
    Ok(list)
}

// Returns the tree of a text without errors, from the arrays that begin with its elements.
fn tree_of(
    alloc: Global,
    text: &str,
    ranges: &[RnixRange],
    links: &[RnixLink],
) -> Result<GreenNode, AllocError>
    requires short { length text.now < 2 ^ 32 }
    requires kept { HoldParse text.now ranges.now links.now 0 }
    ensures root { IfOk result (λ green. green.kind ≡ NODE_ROOT) }
    ensures read { IfOk result (λ green. IsParsed (tokens_of text.now) green []) }
{
    let list = kept_elements(alloc, ranges, links)?;
    let green = list.into_tree(text)?;
    Ok(green)
}

/// Returns the parse of a text without errors, from the arrays that begin with its elements. Nothing is parsed.
pub fn parse_kept(
    alloc: Global,
    text: &str,
    ranges: &[RnixRange],
    links: &[RnixLink],
) -> Result<Parse, AllocError>
    requires short { length text.now < 2 ^ 32 }
    requires kept { HoldParse text.now ranges.now links.now 0 }
    ensures own { IfOk result (λ read. IsParsedText read) }
    ensures text { IfOk result (λ read. text_of (forest_of read.tree) ≡ text.now) }
{
    let green = tree_of(alloc, text, ranges, links)?;
    Ok(Parse::without_errors(alloc, green))
}

/// Returns the parse of a text, given what was stored of it: from the arrays if the text has no errors, otherwise by parsing it. Or returns why it is refused.
pub fn parse_of_kept(
    alloc: Global,
    text: &[u8],
    ranges: &[RnixRange],
    links: &[RnixLink],
    error_count: u64,
) -> Result<Parse, i64>
    requires { HoldParse text.now ranges.now links.now error_count }
    ensures utf8 { IfOk result (λ _. IsUtf8 text.now) }
    ensures read { IfOk result (λ read. IsParsed (tokens_of text.now) read.tree read.faults) }
    ensures refused { IfErr result (λ answer. IsRefused text.now answer) }
{
    if error_count > 0 {
        return parse_of(alloc, text);
    }
    let text = checked(text)?;
    match parse_kept(alloc, text, ranges, links) {
        Ok(read) => Ok(read),
        Err(_) => Err(NO_MEMORY),
    }
}
