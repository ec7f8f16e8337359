//! The number of steps in which a text is read.

ghost use Rattle.std.specs.Prelude.{◌≤◌, ◌+◌, ◌*◌, length};
ghost use Rattle.rnix_kinds.specs.Lexical.Tokens.{tokens_of};
ghost use Rattle.rnix_parser.specs.ReadAlike.{items_of};
ghost use Rattle.rnix_parser.specs.ReadingLaws.{OfRead};
ghost use Rattle.rnix_proof_steps.specs.StepCount.{IsReadIn};

/// The reader needs at most fifteen steps for two items of a text, and one more. It also needs at most four for each item, and 3,585 more: seven for each
/// of the 512 levels of nesting, and one.
pub fn steps(text: &str)
    ensures items { OfRead text.now (IsReadIn (λ steps. 2 * steps ≤ 15 * length (items_of text.now) + 2) (tokens_of text.now)) }
    ensures levels { OfRead text.now (IsReadIn (λ steps. steps ≤ 4 * length (items_of text.now) + 3585) (tokens_of text.now)) }
{
    let _len = text.len();
}
