//! Codes and severities of diagnostics, with names for tools.

ghost use Rattle.std.specs.Prelude.{◌≡◌};
ghost use Rattle.rnix_grammar.specs.Fault.{fault_of};
ghost use Rattle.nix_diagnostics.specs.Codes.{code_of, severity_name, row_of, rule_of};

use crate::rules::{Rule, TABLE};
use rnix::ParseError;

/// The severity of what a diagnostic reports.
#[derive(Clone, Copy, Debug, PartialEq, Eq)]
pub enum Severity {
    /// Nix refuses the text, or this library does not parse all of it.
    Error,
    /// Nix accepts the text, but it is probably a mistake, or says in more words what fewer say.
    Warning,
}

impl Severity {
    /// Returns the name that SARIF, LSP and compilers use: `error` or `warning`.
    pub fn name(self) -> &'static str
        ensures { result.now ≡ severity_name self }
    {
        match self {
            Severity::Error => "error",
            Severity::Warning => "warning",
        }
    }
}

/// What a diagnostic reports. The calls of this crate return the first two; `nix_lints` finds the others.
#[derive(Clone, Copy, Debug, PartialEq, Eq)]
pub enum Code {
    /// A syntax error.
    SyntaxError,
    /// Expressions that are nested deeper than the parser allows.
    NestedTooDeep,
    /// An attribute that is defined again.
    RepeatedAttribute,
    /// White space that Nix does not read, such as a no-break space.
    ForeignSpace,
    /// A name that nothing binds.
    UnboundName,
    /// A name in `${ }` where Nix allows none: in a `let` or an `inherit`.
    DynamicName,
    /// An integer that is too large for Nix.
    LargeInteger,
    /// A number, a string, a path or a list that is called like a function.
    CalledData,
    /// A path that begins with a name, which may be meant as a string.
    BarePath,
    /// Parentheses that change nothing.
    NeedlessParentheses,
    /// An entry that an `inherit` says in fewer words.
    ManualInherit,
    /// A name of a `let` or a parameter that nothing uses.
    UnusedName,
    /// A `with` that no name needs.
    NeedlessWith,
    /// A name of a whole pattern that is one of its arguments, too.
    RepeatedArgument,
    /// A `let` without bindings.
    EmptyLet,
}

impl Code {
    /// Returns the code of an error.
    pub fn of(error: &ParseError) -> Self
        ensures { result ≡ code_of (fault_of error.now) }
    {
        match error {
            ParseError::RecursionLimitExceeded => Code::NestedTooDeep,
            _ => Code::SyntaxError,
        }
    }

    /// Returns what is the same for all diagnostics with the code.
    pub fn rule(self) -> Rule
        ensures { row_of result ≡ rule_of self }
    {
        let (_, name, severity, title, message, note) = TABLE[self as usize];
        Rule {
            name,
            severity,
            title,
            message,
            note,
        }
    }

    /// Returns the code's name, such as `syntax-error`. It does not change from version to version.
    pub fn name(self) -> &'static str
        ensures { result.now ≡ (rule_of self).name }
    {
        self.rule().name
    }

    /// Returns how serious it is.
    pub fn severity(self) -> Severity
        ensures { result ≡ (rule_of self).severity }
    {
        self.rule().severity
    }
}
