//! The tokens outside brackets stay as they are when the brackets are replaced by brackets of another text.
#![tactic(auto)]

ghost use Rattle.rnix_proof_replacement.specs.Replaced.{MayReplace};

/// Brackets may be replaced by the same brackets of another text, or by a text that is such brackets: a set, a list, parentheses, a string or an
/// interpolation, in which each brace, interpolation and string that is opened is closed, and nothing else is. The tokens before and after them stay, and
/// between these are the tokens that the new brackets have in their own text.
pub fn replacement(before: &str, old: &str, after: &str, start: &str, new: &str, end: &str)
    ensures { MayReplace before.now old.now after.now start.now new.now end.now }
{
    let _len = before.len().min(old.len()).min(after.len());
    let _other = start.len().min(new.len()).min(end.len());
}
