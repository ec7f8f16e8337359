//! Beginnings of correct texts.

ghost use Rattle.rnix_laws.specs.ReadPrefix.{HasCorrectPrefix};

/// The beginning of a correct text is not blamed: if two texts begin with the same items, in the sense of `layout`, and the second text has no errors, each
/// error of the first text that has a range starts after these items, unless they end with `{` and `...`.
pub fn correct_prefix(first: &str, second: &str)
    ensures { HasCorrectPrefix first.now second.now }
{
    let _len = first.len().min(second.len());
}
