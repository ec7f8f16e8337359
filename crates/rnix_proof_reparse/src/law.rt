//! The law of reparsing.

ghost use Rattle.rnix_proof_reparse.specs.Reparsed.{IsReparsed};

/// Let the old text, `before`, `old` and `after`, be read without errors, and let `old` be a list, a set, a `let { }`, parentheses or a string in its tree.
/// Let `new` alone be read without errors as one node of that kind with the same first and last token, and with the same tokens up to the `{` if the first is
/// `rec` or `let`. Let it nest no deeper than may be where the old node is. Then the text with `new` in place of `old` is read without errors, as the old tree
/// with the new node in place of the old one.
pub fn reparsing(before: &str, old: &str, after: &str, new: &str)
    ensures { IsReparsed before.now old.now after.now new.now }
{
    let _len = before.len().min(old.len()).min(after.len()).min(new.len());
}
