//! The table of codes: a row for each.

use crate::code::{Code, Severity};

/// What is the same for all diagnostics with a code.
#[derive(Clone, Copy)]
pub struct Rule {
    /// The name for tools, such as `syntax-error`. It does not change from version to version.
    pub name: &'static str,
    /// How serious it is.
    pub severity: Severity,
    /// What it is, for lists of rules.
    pub title: &'static str,
    /// The message; empty if it depends on the text.
    pub message: &'static str,
    /// The note on it; empty if there is none.
    pub note: &'static str,
}

/// All codes.
pub const CODES: [Code; 15] = [
    Code::SyntaxError,
    Code::NestedTooDeep,
    Code::RepeatedAttribute,
    Code::ForeignSpace,
    Code::UnboundName,
    Code::DynamicName,
    Code::LargeInteger,
    Code::CalledData,
    Code::BarePath,
    Code::NeedlessParentheses,
    Code::ManualInherit,
    Code::UnusedName,
    Code::NeedlessWith,
    Code::RepeatedArgument,
    Code::EmptyLet,
];

/// The table, in the order of the codes: the code, its name, its severity, its title, its message and the note. Definitions cite it, and they cannot cite structs.
pub(crate) const TABLE: [(Code, &str, Severity, &str, &str, &str); 15] = [
    (
        Code::SyntaxError,
        "syntax-error",
        Severity::Error,
        "A syntax error",
        "",
        "",
    ),
    (
        Code::NestedTooDeep,
        "nested-too-deep",
        Severity::Error,
        "Expressions that are nested too deep",
        "",
        "",
    ),
    (
        Code::RepeatedAttribute,
        "repeated-attribute",
        Severity::Error,
        "An attribute that is defined again",
        "this attribute is already defined",
        "first defined here",
    ),
    (
        Code::ForeignSpace,
        "foreign-space",
        Severity::Error,
        "White space that Nix does not read",
        "",
        "write a plain space",
    ),
    (
        Code::UnboundName,
        "unbound-name",
        Severity::Error,
        "A name that nothing binds",
        "nothing binds this name",
        "",
    ),
    (
        Code::DynamicName,
        "dynamic-name",
        Severity::Error,
        "A computed name in a let or an inherit",
        "Nix allows no computed name here",
        "",
    ),
    (
        Code::LargeInteger,
        "large-integer",
        Severity::Error,
        "An integer that is too large",
        "this integer is larger than 9223372036854775807, the largest of Nix",
        "",
    ),
    (
        Code::CalledData,
        "called-data",
        Severity::Warning,
        "A number, string, path or list that is called",
        "this is called, but it is not a function",
        "to write a string, put it in quotes",
    ),
    (
        Code::BarePath,
        "bare-path",
        Severity::Warning,
        "A path that begins with a name",
        "this is a path",
        "to write a string, put it in quotes; to write a path, begin it with ./",
    ),
    (
        Code::NeedlessParentheses,
        "needless-parentheses",
        Severity::Warning,
        "Parentheses that change nothing",
        "these parentheses change nothing",
        "leave them out",
    ),
    (
        Code::ManualInherit,
        "manual-inherit",
        Severity::Warning,
        "An entry that an inherit says",
        "\"inherit\" says this in fewer words",
        "write \"inherit\"",
    ),
    (
        Code::UnusedName,
        "unused-name",
        Severity::Warning,
        "A name that nothing uses",
        "nothing uses this name",
        "",
    ),
    (
        Code::NeedlessWith,
        "needless-with",
        Severity::Warning,
        "A with that no name needs",
        "no name needs this \"with\"",
        "leave it out",
    ),
    (
        Code::RepeatedArgument,
        "repeated-argument",
        Severity::Error,
        "A name of a pattern that is one of its arguments, too",
        "an argument of this pattern has the same name",
        "this is the argument",
    ),
    (
        Code::EmptyLet,
        "empty-let",
        Severity::Warning,
        "A let without bindings",
        "this \"let\" binds nothing",
        "leave it out",
    ),
];
