//! Counters of the turns of the reader's loop.

ghost use Rattle.std.specs.Prelude.{ℕ, ◌+◌};

/// Counts the turns of a loop.
pub(crate) trait Turns {
    // The value has counted so many turns.
    ghost counted: { Self → ℕ → Type 0 };

    /// Counts one more turn.
    fn turn(&mut self)
        ensures { (turns : ℕ) → counted self.old turns → counted self.new (turns + 1) };
}

/// A counter that counts nothing.
#[derive(Drop)]
pub(crate) struct Uncounted;

impl Turns for Uncounted {
    ghost counted = { λ _ _. Unit {0} };

    #[inline(always)]
    fn turn(&mut self) {}
}
