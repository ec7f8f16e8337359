//! The result of an edit.

/// The reason why an edit is refused.
#[derive(Clone, Copy, PartialEq, Eq, Debug)]
pub enum Refusal {
    /// The range of the node does not begin and end between characters of the text.
    NotInText,
    /// The new text has errors.
    HasErrors,
    /// The new text parses differently around the edited range.
    ReadOtherwise,
    /// The new node is parsed differently from its text alone.
    NodeReadOtherwise,
}

/// The result of an edit: the new text, or the reason why it is refused.
#[derive(Drop)]
pub enum Edited {
    Done(String),
    Refused(Refusal),
}
