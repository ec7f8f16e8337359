//! Why a part of a text is not data.

use rnix::{SyntaxKind, TextRange};

/// Why a part of a text is not data.
#[derive(Clone, Copy)]
pub enum Reason {
    /// The text has errors.
    Errors,
    /// An expression that Nix must evaluate.
    Evaluated(SyntaxKind),
    /// A set with `rec`.
    Recursive,
    /// An integer that does not fit in 64 bits.
    TooLarge,
    /// A float that Nix cannot represent.
    NoFloat,
    /// A string with the character 0.
    HasNul,
    /// A string in `"` with a carriage return.
    HasReturn,
    /// A string in `''` as a name.
    IndentedName,
    /// An attribute that is already defined.
    Repeated,
    /// A name or a function that changes what `true`, `false` or `null` means, or overrides attributes.
    Redefined,
    /// An operand of `//` that is not a set.
    NoSet,
    /// A character that Nix does not read as white space.
    ForeignSpace,
    /// A carriage return inside a `#` comment: for Nix, the comment ends there.
    EarlyEnd,
    /// A float that begins with `0.` and has no digit after it.
    LacksDigit,
}

/// A part of a text that is not data.
#[derive(Clone, Copy)]
pub struct NoData {
    /// Why it is not data.
    pub reason: Reason,
    /// The range of the part, in bytes.
    pub range: TextRange,
    /// The range where a repeated attribute is first defined.
    pub first: Option<TextRange>,
}

// Returns the message for an expression of a kind.
fn expression(kind: SyntaxKind) -> &'static str {
    match kind {
        SyntaxKind::NODE_APPLY => "a call is not data",
        SyntaxKind::NODE_ASSERT => "`assert` is not data",
        SyntaxKind::NODE_BIN_OP | SyntaxKind::NODE_UNARY_OP | SyntaxKind::NODE_HAS_ATTR => {
            "an operator is not data"
        }
        SyntaxKind::NODE_CUR_POS => "`__curPos` is not data",
        SyntaxKind::NODE_DYNAMIC => "a computed name is not data",
        SyntaxKind::NODE_IDENT => "a name is not data",
        SyntaxKind::NODE_IF_ELSE => "`if` is not data",
        SyntaxKind::NODE_INHERIT => "`inherit` is not data",
        SyntaxKind::NODE_INTERPOL => "an interpolation is not data",
        SyntaxKind::NODE_LAMBDA => "a function is not data",
        SyntaxKind::NODE_LEGACY_LET | SyntaxKind::NODE_LET_IN => "`let` is not data",
        SyntaxKind::NODE_PATH_SEARCH => "a search path is not data",
        SyntaxKind::NODE_SELECT => "a selection is not data",
        SyntaxKind::NODE_WITH => "`with` is not data",
        _ => "this is not data",
    }
}

impl Reason {
    /// Returns the reason in words.
    pub fn text(self) -> &'static str {
        match self {
            Reason::Errors => "the text has errors",
            Reason::Evaluated(kind) => expression(kind),
            Reason::Recursive => "`rec` is not data",
            Reason::TooLarge => "the integer does not fit in 64 bits",
            Reason::NoFloat => "the float is too large or too small",
            Reason::HasNul => "a string cannot hold the character 0",
            Reason::HasReturn => "Nix reads this carriage return as a line feed: write \\r or \\n",
            Reason::IndentedName => "a name cannot be a string in ''",
            Reason::Repeated => "the attribute is already defined",
            Reason::Redefined => "names here could have another meaning",
            Reason::NoSet => "only sets can be merged by `//`",
            Reason::ForeignSpace => "Nix does not read this character as white space",
            Reason::EarlyEnd => "for Nix, the comment ends at this carriage return",
            Reason::LacksDigit => "Nix reads no float here: a digit must follow `0.`",
        }
    }
}
