//! The kinds of tokens and nodes.

ghost use Rattle.std.specs.Prelude.{◌≡◌, All, IfSome, IfNone};
ghost use Rattle.rnix_kinds.specs.SyntaxKind.{name_of, is_literal, is_fn_arg, is_trivia};

use std::error::Error;
use std::fmt;
use std::str::FromStr;

/// The kind of a token or a node. Kinds are ordered as they are declared: tokens first.
#[derive(Clone, Copy, Debug, PartialEq, Eq, PartialOrd, Ord, Hash)]
#[allow(non_camel_case_types)]
pub enum SyntaxKind {
    TOKEN_ADD,
    TOKEN_AND_AND,
    TOKEN_ASSIGN,
    TOKEN_ASSERT,
    TOKEN_AT,
    TOKEN_COLON,
    TOKEN_COMMA,
    TOKEN_COMMENT,
    TOKEN_CONCAT,
    TOKEN_CUR_POS,
    TOKEN_DIV,
    TOKEN_DOT,
    TOKEN_ELLIPSIS,
    TOKEN_ELSE,
    TOKEN_EQUAL,
    TOKEN_ERROR,
    TOKEN_FLOAT,
    TOKEN_IDENT,
    TOKEN_IF,
    TOKEN_IMPLICATION,
    TOKEN_IN,
    TOKEN_INHERIT,
    TOKEN_INTEGER,
    TOKEN_INTERPOL_END,
    TOKEN_INTERPOL_START,
    TOKEN_INVERT,
    TOKEN_L_BRACE,
    TOKEN_L_BRACK,
    TOKEN_L_PAREN,
    TOKEN_LESS,
    TOKEN_LESS_OR_EQ,
    TOKEN_LET,
    TOKEN_MORE,
    TOKEN_MORE_OR_EQ,
    TOKEN_MUL,
    TOKEN_NOT_EQUAL,
    TOKEN_OR,
    TOKEN_OR_OR,
    TOKEN_PATH_ABS,
    TOKEN_PATH_HOME,
    TOKEN_PATH_REL,
    TOKEN_PATH_SEARCH,
    TOKEN_PIPE_LEFT,
    TOKEN_PIPE_RIGHT,
    TOKEN_QUESTION,
    TOKEN_R_BRACE,
    TOKEN_R_BRACK,
    TOKEN_R_PAREN,
    TOKEN_REC,
    TOKEN_SEMICOLON,
    TOKEN_STRING_CONTENT,
    TOKEN_STRING_END,
    TOKEN_STRING_START,
    TOKEN_SUB,
    TOKEN_THEN,
    TOKEN_UPDATE,
    TOKEN_URI,
    TOKEN_WHITESPACE,
    TOKEN_WITH,
    NODE_APPLY,
    NODE_ASSERT,
    NODE_ATTR_SET,
    NODE_ATTRPATH,
    NODE_ATTRPATH_VALUE,
    NODE_BIN_OP,
    NODE_CUR_POS,
    NODE_DYNAMIC,
    NODE_ERROR,
    NODE_HAS_ATTR,
    NODE_IDENT,
    NODE_IDENT_PARAM,
    NODE_IF_ELSE,
    NODE_INHERIT,
    NODE_INHERIT_FROM,
    NODE_INTERPOL,
    NODE_LAMBDA,
    NODE_LEGACY_LET,
    NODE_LET_IN,
    NODE_LIST,
    NODE_LITERAL,
    NODE_PAREN,
    NODE_PAT_BIND,
    NODE_PAT_ENTRY,
    NODE_PATTERN,
    NODE_PATH_ABS,
    NODE_PATH_HOME,
    NODE_PATH_REL,
    NODE_PATH_SEARCH,
    NODE_ROOT,
    NODE_SELECT,
    NODE_STRING,
    NODE_UNARY_OP,
    NODE_WITH,
}

/// The error of parsing a text that is not the name of a kind.
#[derive(Clone, Copy, Debug, PartialEq, Eq)]
pub struct ParseSyntaxKindError;

// Every kind, in order.
pub(crate) const ALL: [SyntaxKind; 93] = [
    SyntaxKind::TOKEN_ADD,
    SyntaxKind::TOKEN_AND_AND,
    SyntaxKind::TOKEN_ASSIGN,
    SyntaxKind::TOKEN_ASSERT,
    SyntaxKind::TOKEN_AT,
    SyntaxKind::TOKEN_COLON,
    SyntaxKind::TOKEN_COMMA,
    SyntaxKind::TOKEN_COMMENT,
    SyntaxKind::TOKEN_CONCAT,
    SyntaxKind::TOKEN_CUR_POS,
    SyntaxKind::TOKEN_DIV,
    SyntaxKind::TOKEN_DOT,
    SyntaxKind::TOKEN_ELLIPSIS,
    SyntaxKind::TOKEN_ELSE,
    SyntaxKind::TOKEN_EQUAL,
    SyntaxKind::TOKEN_ERROR,
    SyntaxKind::TOKEN_FLOAT,
    SyntaxKind::TOKEN_IDENT,
    SyntaxKind::TOKEN_IF,
    SyntaxKind::TOKEN_IMPLICATION,
    SyntaxKind::TOKEN_IN,
    SyntaxKind::TOKEN_INHERIT,
    SyntaxKind::TOKEN_INTEGER,
    SyntaxKind::TOKEN_INTERPOL_END,
    SyntaxKind::TOKEN_INTERPOL_START,
    SyntaxKind::TOKEN_INVERT,
    SyntaxKind::TOKEN_L_BRACE,
    SyntaxKind::TOKEN_L_BRACK,
    SyntaxKind::TOKEN_L_PAREN,
    SyntaxKind::TOKEN_LESS,
    SyntaxKind::TOKEN_LESS_OR_EQ,
    SyntaxKind::TOKEN_LET,
    SyntaxKind::TOKEN_MORE,
    SyntaxKind::TOKEN_MORE_OR_EQ,
    SyntaxKind::TOKEN_MUL,
    SyntaxKind::TOKEN_NOT_EQUAL,
    SyntaxKind::TOKEN_OR,
    SyntaxKind::TOKEN_OR_OR,
    SyntaxKind::TOKEN_PATH_ABS,
    SyntaxKind::TOKEN_PATH_HOME,
    SyntaxKind::TOKEN_PATH_REL,
    SyntaxKind::TOKEN_PATH_SEARCH,
    SyntaxKind::TOKEN_PIPE_LEFT,
    SyntaxKind::TOKEN_PIPE_RIGHT,
    SyntaxKind::TOKEN_QUESTION,
    SyntaxKind::TOKEN_R_BRACE,
    SyntaxKind::TOKEN_R_BRACK,
    SyntaxKind::TOKEN_R_PAREN,
    SyntaxKind::TOKEN_REC,
    SyntaxKind::TOKEN_SEMICOLON,
    SyntaxKind::TOKEN_STRING_CONTENT,
    SyntaxKind::TOKEN_STRING_END,
    SyntaxKind::TOKEN_STRING_START,
    SyntaxKind::TOKEN_SUB,
    SyntaxKind::TOKEN_THEN,
    SyntaxKind::TOKEN_UPDATE,
    SyntaxKind::TOKEN_URI,
    SyntaxKind::TOKEN_WHITESPACE,
    SyntaxKind::TOKEN_WITH,
    SyntaxKind::NODE_APPLY,
    SyntaxKind::NODE_ASSERT,
    SyntaxKind::NODE_ATTR_SET,
    SyntaxKind::NODE_ATTRPATH,
    SyntaxKind::NODE_ATTRPATH_VALUE,
    SyntaxKind::NODE_BIN_OP,
    SyntaxKind::NODE_CUR_POS,
    SyntaxKind::NODE_DYNAMIC,
    SyntaxKind::NODE_ERROR,
    SyntaxKind::NODE_HAS_ATTR,
    SyntaxKind::NODE_IDENT,
    SyntaxKind::NODE_IDENT_PARAM,
    SyntaxKind::NODE_IF_ELSE,
    SyntaxKind::NODE_INHERIT,
    SyntaxKind::NODE_INHERIT_FROM,
    SyntaxKind::NODE_INTERPOL,
    SyntaxKind::NODE_LAMBDA,
    SyntaxKind::NODE_LEGACY_LET,
    SyntaxKind::NODE_LET_IN,
    SyntaxKind::NODE_LIST,
    SyntaxKind::NODE_LITERAL,
    SyntaxKind::NODE_PAREN,
    SyntaxKind::NODE_PAT_BIND,
    SyntaxKind::NODE_PAT_ENTRY,
    SyntaxKind::NODE_PATTERN,
    SyntaxKind::NODE_PATH_ABS,
    SyntaxKind::NODE_PATH_HOME,
    SyntaxKind::NODE_PATH_REL,
    SyntaxKind::NODE_PATH_SEARCH,
    SyntaxKind::NODE_ROOT,
    SyntaxKind::NODE_SELECT,
    SyntaxKind::NODE_STRING,
    SyntaxKind::NODE_UNARY_OP,
    SyntaxKind::NODE_WITH,
];

// The name of a kind, which is one of those listed.
macro_rules! names {
    ($kind:expr, $($name:ident)*) => {
        match $kind {
            $(SyntaxKind::$name => stringify!($name),)*
        }
    };
}

impl SyntaxKind {
    /// Returns the name of the kind, such as `TOKEN_ADD`.
    pub fn name(self) -> &'static str
        ensures { result.now ≡ name_of self }
    {
        names!(
            self,
            TOKEN_ADD TOKEN_AND_AND TOKEN_ASSIGN TOKEN_ASSERT TOKEN_AT TOKEN_COLON TOKEN_COMMA
            TOKEN_COMMENT TOKEN_CONCAT TOKEN_CUR_POS TOKEN_DIV TOKEN_DOT TOKEN_ELLIPSIS TOKEN_ELSE
            TOKEN_EQUAL TOKEN_ERROR TOKEN_FLOAT TOKEN_IDENT TOKEN_IF TOKEN_IMPLICATION TOKEN_IN
            TOKEN_INHERIT TOKEN_INTEGER TOKEN_INTERPOL_END TOKEN_INTERPOL_START TOKEN_INVERT
            TOKEN_L_BRACE TOKEN_L_BRACK TOKEN_L_PAREN TOKEN_LESS TOKEN_LESS_OR_EQ TOKEN_LET
            TOKEN_MORE TOKEN_MORE_OR_EQ TOKEN_MUL TOKEN_NOT_EQUAL TOKEN_OR TOKEN_OR_OR
            TOKEN_PATH_ABS TOKEN_PATH_HOME TOKEN_PATH_REL TOKEN_PATH_SEARCH TOKEN_PIPE_LEFT
            TOKEN_PIPE_RIGHT TOKEN_QUESTION TOKEN_R_BRACE TOKEN_R_BRACK TOKEN_R_PAREN TOKEN_REC
            TOKEN_SEMICOLON TOKEN_STRING_CONTENT TOKEN_STRING_END TOKEN_STRING_START TOKEN_SUB
            TOKEN_THEN TOKEN_UPDATE TOKEN_URI TOKEN_WHITESPACE TOKEN_WITH NODE_APPLY NODE_ASSERT
            NODE_ATTR_SET NODE_ATTRPATH NODE_ATTRPATH_VALUE NODE_BIN_OP NODE_CUR_POS NODE_DYNAMIC
            NODE_ERROR NODE_HAS_ATTR NODE_IDENT NODE_IDENT_PARAM NODE_IF_ELSE NODE_INHERIT
            NODE_INHERIT_FROM NODE_INTERPOL NODE_LAMBDA NODE_LEGACY_LET NODE_LET_IN NODE_LIST
            NODE_LITERAL NODE_PAREN NODE_PAT_BIND NODE_PAT_ENTRY NODE_PATTERN NODE_PATH_ABS
            NODE_PATH_HOME NODE_PATH_REL NODE_PATH_SEARCH NODE_ROOT NODE_SELECT NODE_STRING
            NODE_UNARY_OP NODE_WITH
        )
    }

    /// Returns whether the token is a literal by itself: a number, a path or a URI.
    #[inline(always)]
    pub fn is_literal(self) -> bool
        ensures { result ≡ is_literal self }
    {
        matches!(
            self,
            SyntaxKind::TOKEN_FLOAT
                | SyntaxKind::TOKEN_INTEGER
                | SyntaxKind::TOKEN_PATH_ABS
                | SyntaxKind::TOKEN_PATH_REL
                | SyntaxKind::TOKEN_PATH_HOME
                | SyntaxKind::TOKEN_PATH_SEARCH
                | SyntaxKind::TOKEN_URI
        )
    }

    /// Returns whether the token can begin the argument of a function.
    #[inline(always)]
    pub fn is_fn_arg(self) -> bool
        ensures { result ≡ is_fn_arg self }
    {
        self.is_literal()
            || matches!(
                self,
                SyntaxKind::TOKEN_REC
                    | SyntaxKind::TOKEN_L_BRACE
                    | SyntaxKind::TOKEN_L_BRACK
                    | SyntaxKind::TOKEN_L_PAREN
                    | SyntaxKind::TOKEN_STRING_START
                    | SyntaxKind::TOKEN_IDENT
                    | SyntaxKind::TOKEN_CUR_POS
            )
    }

    /// Returns whether the token is a comment or white space.
    #[inline]
    pub fn is_trivia(self) -> bool
        ensures { result ≡ is_trivia self }
    {
        matches!(
            self,
            SyntaxKind::TOKEN_COMMENT | SyntaxKind::TOKEN_WHITESPACE
        )
    }
}

// The first of the kinds that has the name.
fn named(kinds: &[SyntaxKind], name: &str) -> Option<SyntaxKind>
    ensures found { IfSome result (λ kind. name_of kind ≡ name.now) }
    ensures missing { IfNone result (All (λ kind. ¬ (name_of kind ≡ name.now)) kinds.now) }
{
    for kind in kinds {
        if kind.name() == name {
            return Some(*kind);
        }
    }
    None
}

impl FromStr for SyntaxKind {
    type Err = ParseSyntaxKindError;

    ghost use Rattle.rnix_kinds.specs.SyntaxKind.{IsReadKind};

    ghost from_str_gives = { IsReadKind };

    fn from_str(name: &str) -> Result<SyntaxKind, ParseSyntaxKindError> {
        match named(&ALL, name) {
            Some(kind) => Ok(kind),
            None => Err(ParseSyntaxKindError),
        }
    }
}

impl fmt::Display for ParseSyntaxKindError {
    ghost use Rattle.std.specs.Prelude.{Some, codes};

    ghost output = { λ _. Some (codes "invalid SyntaxKind") };

    fn fmt<W: fmt::Write>(&self, f: &mut fmt::Formatter<W>) -> fmt::Result {
        f.write_str("invalid SyntaxKind")
    }
}

impl Error for ParseSyntaxKindError {}
