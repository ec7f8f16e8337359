//! A law about formatted texts, for proofs.

ghost use Rattle.nix_formatting.specs.PatternParts.{KeepsParts, AllowsLastComma};

/// Commas of patterns change no other part of these: the children of all other kinds are the same, and a pattern may have a comma after its last argument
/// exactly if it may have none, with the same names.
#[tactic(auto, using(crate::proofs::PatternPartLemmas::keeps_parts, crate::proofs::PatternPartLemmas::allows_last_comma))]
pub fn commas_change_no_part()
    ensures parts { KeepsParts }
    ensures pattern { AllowsLastComma }
{}
