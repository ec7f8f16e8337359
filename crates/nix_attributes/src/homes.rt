//! The sets and names by which the attributes of a text are defined first.

ghost use Rattle.std.specs.Prelude.{◌≡◌, ℕ, IfOk};
ghost use Rattle.nix_attributes.specs.Attributes.{home_by};
ghost use Rattle.nix_attributes.specs.Repeated.{home_in};

use crate::attributes::{Attributes, attribute_of};
use crate::entries::add_names;
use rnix::SyntaxNode;
use std::alloc::{AllocError, Global};
use std::collections::BTreeMap;

/// For each set, `let` and name of a path, where the names inside its attribute are: in the set or the name that defines the attribute first.
#[derive(Drop)]
pub struct Homes {
    // Only what is inside an attribute that an earlier name defines has another home than itself.
    homes: BTreeMap<usize, usize>,
}

impl Homes {
    /// Returns the home of the names whose owner has a number. The owner of a name is the name before it in its path, or else the set or `let` with its entry.
    pub fn home(&self, owner: usize) -> usize
        ensures { result ≡ home_by self.now owner }
    {
        attribute_of(&self.homes, owner)
    }

    /// Returns the homes of the names inside a node. In Nix, an entry that adds to a set belongs to the set of the first definition.
    pub fn of(alloc: Global, root: &SyntaxNode<'_>) -> Result<Homes, AllocError>
        ensures { IfOk result (λ homes. (owner : ℕ) → home_by homes owner ≡ home_in root.now owner) }
    {
        let mut attributes = Attributes::new(alloc);
        for node in root.descendants() {
            add_names(alloc, node, &mut attributes)?;
        }
        Ok(Homes {
            homes: attributes.attributes,
        })
    }
}
