//! The tokens of a text stay the same when they are written with white space between them.
#![tactic(auto)]

ghost use Rattle.rnix_proof_separation.specs.Separated.{AreCutAgain};

/// Two texts have the same tokens, white space aside, if the first has no TOKEN_ERROR, and the second is made of the tokens of the first one with white
/// space between any two of them outside strings and paths. After a comment that begins with `#`, the white space begins with a line feed. After a
/// bracket, a separator or a name it may be missing, as `may_touch` says.
pub fn separation(first: &str, second: &str)
    ensures { AreCutAgain first.now second.now }
{
    let _len = first.len().min(second.len());
}
