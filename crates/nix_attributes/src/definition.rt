//! Names that define an attribute, and where they are written.

use rnix::TextRange;
use std::borrow::CowStr;

/// The site of a name that defines an attribute, or that leads to the one that its entry defines.
#[derive(Clone, Copy)]
pub struct NameSite {
    /// The name.
    pub range: TextRange,
    /// The number of the set or `let` with the entry, or of the name before this one in its path.
    pub owner: usize,
    /// The owner of the names inside its attribute: the number of the set that is its value, or of the name itself if there is none.
    pub inner: usize,
    /// Whether it follows another name in its path.
    pub continues: bool,
    /// Whether other entries may add names to the attribute: its path continues, or its value is a set.
    pub is_open: bool,
}

/// A name and its site.
#[derive(Drop)]
pub struct Definition<'t> {
    /// The name as Nix reads it, if the text alone determines it.
    pub text: Option<CowStr<'t>>,
    pub name_site: NameSite,
}
