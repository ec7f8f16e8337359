//! Each text has one reading, and what follows from it.

ghost use Rattle.std.specs.Prelude.{◌≡◌, ◌≤◌, ◌+◌, ◌*◌, List, length};
ghost use Rattle.rnix_kinds.specs.declared.kinds.SyntaxKind.TheVariants.{NODE_ROOT};
ghost use Rattle.rnix_kinds.specs.Lexical.Tokens.{Lexeme, tokens_of};
ghost use Rattle.rnix_green.specs.Forest.{text_of};
ghost use Rattle.rnix_green.specs.Tree.{Tree, forest_of};
ghost use Rattle.rnix_grammar.specs.Fault.{Fault};
ghost use Rattle.rnix_grammar.specs.Tables.{depth_limit};
ghost use Rattle.rnix_grammar.specs.Rules.{row};
ghost use Rattle.rnix_grammar.specs.Named.{AreNamed};
ghost use Rattle.rnix_grammar.specs.ErrorNodes.{AreErrorNodes};
ghost use Rattle.rnix_grammar.specs.Nesting.{depth_of, AreLimited};
ghost use Rattle.rnix_grammar.specs.Reading.{IsReading};
ghost use Rattle.rnix_grammar.specs.Parsed.{IsParsed};
ghost use Rattle.rnix_parser.specs.ReadAlike.{items_of, AreReadAlike};
ghost use Rattle.rnix_parser.specs.ReadingLaws.{OfRead, OfReadings, HaveOneReading, AreOneText, elements_in};

/// Tokens have at most one reading: two readings of the same tokens have equal trees and equal errors.
pub fn one_reading()
    ensures { (tokens : List Lexeme) → HaveOneReading tokens }
{}

/// Each text has a reading, whether or not memory is found for it.
pub fn has_reading(text: &str)
    ensures { (tree : Tree) × ((faults : List Fault) × IsReading (tokens_of text.now) tree faults) }
{
    let _len = text.len();
}

/// Two texts that are read as the same tree are equal, and so are their errors.
pub fn one_text(first: &str, second: &str)
    ensures { AreOneText first.now second.now }
{
    let _len = first.len().min(second.len());
}

/// Two texts whose items have the same kinds and texts, one by one, and touch alike inside paths have the same tree apart from trivia. Their errors are the
/// same, one by one, apart from their ranges, which are those of the same items.
pub fn layout(first: &str, second: &str)
    ensures { AreReadAlike first.now second.now }
{
    let _len = first.len().min(second.len());
}

/// Everything that is promised about the tree and the errors of a text follows from their being its reading.
pub fn all_follows(text: &str)
    ensures { OfRead text.now (λ tree faults. IsParsed (tokens_of text.now) tree faults) }
{
    let _len = text.len();
}

/// What each error node of a reading contains, and in which nodes it may be; names are only where they are allowed; at most 512 counted positions are
/// inside one another, not counting error nodes, and an operand that is nested too deep is inside exactly 512.
pub fn error_forms()
    ensures nodes { OfReadings (λ annotated faults. AreErrorNodes NODE_ROOT annotated) }
    ensures named { OfReadings (λ annotated faults. AreNamed (row NODE_ROOT) annotated) }
    ensures shallow { OfReadings (λ annotated faults. depth_of (row NODE_ROOT) annotated ≤ depth_limit) }
    ensures limited { OfReadings (λ annotated faults. AreLimited 0 (row NODE_ROOT) annotated) }
{}

/// The tree of a text has at most two nodes per item, plus three. With the leaves it has at most three elements per token of the text, or per byte,
/// plus three.
pub fn size(text: &str)
    ensures items { OfRead text.now (λ tree faults. elements_in tree ≤ 2 * length (items_of text.now) + length (tokens_of text.now) + 3) }
    ensures tokens { OfRead text.now (λ tree faults. elements_in tree ≤ 3 * length (tokens_of text.now) + 3) }
    ensures bytes { OfRead text.now (λ tree faults. elements_in tree ≤ 3 * length text.now + 3) }
{
    let _len = text.len();
}

/// The text of a text's tree is that text, byte for byte.
pub fn tree_text(text: &str)
    ensures { OfRead text.now (λ tree faults. text_of (forest_of tree) ≡ text.now) }
{
    let _len = text.len();
}
