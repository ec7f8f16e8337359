//! Laws that hold for every text. Each is the contract of a function that computes nothing; calling it gives the proof its clauses.

ghost use Rattle.std.specs.Prelude.{◌≡◌, ℕ, List};
ghost use Rattle.nix_values.specs.Contents.{Entry};
ghost use Rattle.nix_data.specs.Written.{IsWritten, IsData, IsNoData};

use rnix::laws::one_reading;

/// A text means at most one list of values: if it means two, these are equal, in order, with the same depths and names.
pub fn one_meaning()
    ensures { (text : List ℕ) (one other : List Entry) → IsWritten text one → IsWritten text other → one ≡ other }
{
    one_reading();
}

/// A text has at most one list of data, and none if it is refused.
pub fn one_data()
    ensures one { (text : List ℕ) (one other : List Entry) → IsData text one → IsData text other → one ≡ other }
    ensures none { (text : List ℕ) (entries : List Entry) → IsData text entries → IsNoData text → ⊥ }
{
    one_reading();
}
