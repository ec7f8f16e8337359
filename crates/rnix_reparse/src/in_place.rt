//! The parse of a text after an edit, in place of the parse before.

ghost use Rattle.std.specs.Prelude.{◌≡◌, OnOk, OnErr};
ghost use Rattle.rnix_kinds.specs.Lexical.Tokens.{tokens_of};
ghost use Rattle.rnix_green.specs.Forest.{text_of};
ghost use Rattle.rnix_green.specs.Range.{bounds_of};
ghost use Rattle.rnix_green.specs.Tree.{forest_of};
ghost use Rattle.rnix_grammar.specs.Parsed.{IsParsed};
ghost use Rattle.rnix_reparse.specs.EditedRange.{edited, IsRangeOf};
ghost use Rattle.rnix_reparse.specs.ParsedText.{IsParsedText};

use crate::reparsing::reparse_node;
use crate::texts::edited_text;
use rnix::{Parse, Root, TextRange};
use std::alloc::{AllocError, Global};

/// Updates a parse to that of the text after an edit, which replaces the bytes in `range`: the result is what `reparse` returns. If a node is parsed alone and
/// has as many elements as before, the tree is not copied: only the node's elements and the starts of those after it are written. The text is copied. If
/// memory is refused, the parse stays as it was. The parse and the range must be as for `reparse`.
pub fn reparse_in_place(
    alloc: Global,
    parse: &mut Parse,
    range: TextRange,
    replacement: &str,
) -> Result<(), AllocError>
    requires parsed { IsParsedText parse.old }
    requires range { IsRangeOf (text_of (forest_of parse.old.tree)) (bounds_of range) }
    ensures new { OnOk result (
        IsParsed (tokens_of (edited (bounds_of range) replacement.now (text_of (forest_of parse.old.tree)))) parse.new.tree parse.new.faults) }
    ensures again { OnOk result (IsParsedText parse.new) }
    ensures err { OnErr result (parse.new ≡ parse.old) }
{
    // Called only for its contract, from which the proof learns that the text is UTF-8.
    let _text = parse.text();
    if parse.errors().is_empty() {
        if let Some(new) = reparse_node(alloc, parse.green(), range, replacement)? {
            parse.set_node(new.number, new.parse.green())?;
            return Ok(());
        }
    }
    let text = edited_text(alloc, parse.text(), range.start(), range.end(), replacement)?;
    let new = Root::parse(alloc, text.as_str())?;
    *parse = new;
    Ok(())
}
