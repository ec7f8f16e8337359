//! The update that a command line asks for.

use crate::value::Form;

/// An action on the attribute of a path.
#[derive(Clone, Copy, PartialEq, Eq)]
pub enum Action {
    /// Set its value.
    Set,
    /// Set its value, and add the attribute if there is none.
    Add,
    /// Remove it.
    Remove,
    /// Add an element to the list that its value writes out, after the others.
    Append,
    /// Remove the first element of that list with the text that `Append` would add.
    RemoveItem,
}

/// An update: an action on the attribute of a path, and the text and form of its value.
#[derive(Clone, Copy)]
pub struct Update<'a> {
    pub action: Action,
    pub path: &'a str,
    pub form: Form,
    pub value: &'a str,
    /// Whether to add or remove an attribute even if a name then refers to something else.
    pub is_forced: bool,
}
