//! The white space between two children of a node: one table, indexed by the kinds of the node and of the two children.

use crate::frame::{Frame, Place};
use crate::piece::Level;
use rnix::SyntaxKind;

/// The white space between two children of a node.
#[derive(Clone, Copy)]
pub struct Spacing {
    /// The number of spaces if the line does not end here.
    pub blanks: u8,
    /// Whether the line ends here if the group is broken.
    pub can_break: bool,
    /// Whether the line always ends here.
    pub is_hard: bool,
    /// The indentation of the next line.
    pub level: Level,
    /// Whether a line feed of the old text is kept.
    pub keeps_break: bool,
    /// Whether an empty line of the old text is kept.
    pub keeps_empty: bool,
    /// Whether an opening bracket or keyword, `=` or `:` precedes.
    pub opens: bool,
    /// Whether a closing bracket or keyword follows.
    pub closes: bool,
    /// Whether the gap belongs to the group of the condition.
    pub is_inner: bool,
}

/// The child after the gap.
#[derive(Clone, Copy)]
pub struct Child {
    pub kind: SyntaxKind,
    /// Whether it is a set or a list without a node inside, as `{ }`.
    pub is_empty: bool,
    /// Whether it is a function whose parameter is a name.
    pub is_named_lambda: bool,
    /// Whether it is a set or a list with something inside or a string in `''` with several lines, perhaps after a `with`.
    pub is_absorbed: bool,
    /// Whether it has a line for each of its elements, however short they are.
    pub is_expanded: bool,
    /// Whether it is a list of few simple elements before the last argument of a call. It is broken in place of the call only if it has several lines anyway.
    pub is_short: bool,
    /// Whether it is an operation after `=` that begins with a set, a list or a string in `''`.
    pub is_hung: bool,
    /// Whether it is a call whose last two arguments are lists.
    pub is_paired: bool,
    /// Whether it is a call of simple parts, which is always on one line.
    pub is_plain: bool,
}

// No white space.
const GLUED: Spacing = Spacing {
    blanks: 0,
    can_break: false,
    is_hard: false,
    level: Level::Inner,
    keeps_break: false,
    keeps_empty: false,
    opens: false,
    closes: false,
    is_inner: false,
};

// One space.
const SPACED: Spacing = Spacing { blanks: 1, ..GLUED };

// One space, or a line feed.
const LINE: Spacing = Spacing {
    can_break: true,
    ..SPACED
};

// No white space, or a line feed.
const SOFT: Spacing = Spacing {
    can_break: true,
    ..GLUED
};

// Returns the white space as it is after an opening bracket or keyword.
fn opening(spacing: Spacing) -> Spacing {
    Spacing {
        opens: true,
        ..spacing
    }
}

// Returns the white space as it is before a closing bracket or keyword, at the level of the group.
fn closing(spacing: Spacing) -> Spacing {
    Spacing {
        closes: true,
        level: Level::Same,
        ..spacing
    }
}

// Returns the white space with the next line at the level of the group.
fn level(spacing: Spacing) -> Spacing {
    Spacing {
        level: Level::Same,
        ..spacing
    }
}

// Returns the white space with a line feed that is always written.
fn hard(spacing: Spacing) -> Spacing {
    Spacing {
        is_hard: true,
        ..spacing
    }
}

// Returns the white space with a line feed if the old text has one.
fn keeping_break(spacing: Spacing) -> Spacing {
    Spacing {
        keeps_break: true,
        ..spacing
    }
}

// Returns the white space with an empty line if the old text has one.
fn keeping_empty(spacing: Spacing) -> Spacing {
    Spacing {
        keeps_empty: true,
        ..spacing
    }
}

// Returns the white space as a part of the group of the condition.
fn inner(spacing: Spacing) -> Spacing {
    Spacing {
        is_inner: true,
        ..spacing
    }
}

// Returns the white space between empty brackets, or those that hold comments alone. The brackets of a value may be on two lines.
fn between_brackets(place: Place) -> Spacing {
    let spacing = Spacing {
        keeps_break: place == Place::Value,
        ..SPACED
    };
    opening(closing(keeping_empty(spacing)))
}

// Returns the white space between two children of a set or a list.
fn bracketed(place: Place, before: SyntaxKind, next: SyntaxKind) -> Spacing {
    let line = keeping_empty(keeping_break(LINE));
    match (before, next) {
        (SyntaxKind::TOKEN_REC | SyntaxKind::TOKEN_LET, _) => SPACED,
        (SyntaxKind::TOKEN_L_BRACE, SyntaxKind::TOKEN_R_BRACE)
        | (SyntaxKind::TOKEN_L_BRACK, SyntaxKind::TOKEN_R_BRACK) => between_brackets(place),
        (SyntaxKind::TOKEN_L_BRACE | SyntaxKind::TOKEN_L_BRACK, _) => opening(line),
        (_, SyntaxKind::TOKEN_R_BRACE | SyntaxKind::TOKEN_R_BRACK) => closing(line),
        _ => line,
    }
}

// Returns the white space between two children of a `let`.
fn in_let(before: SyntaxKind, next: SyntaxKind) -> Spacing {
    let line = keeping_empty(hard(LINE));
    match (before, next) {
        (_, SyntaxKind::TOKEN_IN) => closing(line),
        (SyntaxKind::TOKEN_LET, _) => opening(line),
        (SyntaxKind::TOKEN_IN, _) => level(opening(line)),
        _ => line,
    }
}

// Returns the white space between two children of a `with` or an `assert`.
fn in_prefix(before: SyntaxKind, next: SyntaxKind) -> Spacing {
    match (before, next) {
        (_, SyntaxKind::TOKEN_SEMICOLON) => GLUED,
        (SyntaxKind::TOKEN_SEMICOLON, _) => keeping_empty(level(LINE)),
        _ => SPACED,
    }
}

// Returns the white space between two children of a conditional.
fn in_conditional(before: SyntaxKind, next: SyntaxKind) -> Spacing {
    match (before, next) {
        (SyntaxKind::TOKEN_IF, _) => inner(opening(LINE)),
        (_, SyntaxKind::TOKEN_THEN) => inner(closing(LINE)),
        (_, SyntaxKind::TOKEN_ELSE) => closing(LINE),
        (SyntaxKind::TOKEN_ELSE, SyntaxKind::NODE_IF_ELSE) => SPACED,
        _ => opening(LINE),
    }
}

// Returns the white space between two children of a function.
fn in_lambda(names: usize, next: Child) -> Spacing {
    let body = keeping_empty(level(opening(LINE)));
    if next.kind == SyntaxKind::TOKEN_COLON {
        GLUED
    } else if next.is_named_lambda && names > 0 {
        level(opening(SPACED))
    } else if names > 2 && !next.is_absorbed {
        hard(body)
    } else {
        body
    }
}

// Returns the white space between two children of a pattern.
fn in_pattern(before: SyntaxKind, next: SyntaxKind) -> Spacing {
    let line = keeping_empty(keeping_break(LINE));
    match (before, next) {
        (SyntaxKind::TOKEN_L_BRACE, SyntaxKind::TOKEN_R_BRACE) => opening(closing(SPACED)),
        (_, SyntaxKind::TOKEN_COMMA | SyntaxKind::NODE_PAT_BIND) => GLUED,
        (SyntaxKind::NODE_PAT_BIND, _) => GLUED,
        (SyntaxKind::TOKEN_L_BRACE, _) => opening(line),
        (_, SyntaxKind::TOKEN_R_BRACE) => closing(line),
        _ => line,
    }
}

// Returns the white space between two children of an `inherit`.
fn in_inherit(before: SyntaxKind, next: SyntaxKind) -> Spacing {
    match (before, next) {
        (SyntaxKind::TOKEN_INHERIT, SyntaxKind::TOKEN_SEMICOLON) => GLUED,
        (SyntaxKind::NODE_INHERIT_FROM, SyntaxKind::TOKEN_SEMICOLON) => GLUED,
        (_, SyntaxKind::NODE_INHERIT_FROM) => SPACED,
        (_, SyntaxKind::TOKEN_SEMICOLON) => keeping_break(SOFT),
        _ => keeping_break(LINE),
    }
}

// Returns the white space before the value of an entry.
fn before_value(value: Child) -> Spacing {
    match value.kind {
        SyntaxKind::NODE_STRING
        | SyntaxKind::NODE_PATH_ABS
        | SyntaxKind::NODE_PATH_HOME
        | SyntaxKind::NODE_PATH_REL
        | SyntaxKind::NODE_PATH_SEARCH => SPACED,
        _ if value.is_empty || value.is_hung || value.is_plain => SPACED,
        _ => LINE,
    }
}

// Returns the white space between two children of an entry.
fn in_entry(before: SyntaxKind, next: Child) -> Spacing {
    if before == SyntaxKind::TOKEN_ASSIGN {
        opening(before_value(next))
    } else if next.kind == SyntaxKind::TOKEN_SEMICOLON {
        GLUED
    } else {
        SPACED
    }
}

// Returns the white space between two children of a selection. After a path or a number a space is needed, since they would otherwise include the `.`.
fn in_selection(before: SyntaxKind, next: SyntaxKind) -> Spacing {
    match (before, next) {
        (_, SyntaxKind::TOKEN_OR) | (SyntaxKind::TOKEN_OR, _) => SPACED,
        (
            SyntaxKind::NODE_LITERAL
            | SyntaxKind::NODE_PATH_ABS
            | SyntaxKind::NODE_PATH_HOME
            | SyntaxKind::NODE_PATH_REL,
            _,
        ) => SPACED,
        _ => GLUED,
    }
}

// Returns the white space between two children of a computed attribute.
fn in_dynamic(before: SyntaxKind, next: SyntaxKind) -> Spacing {
    if before == SyntaxKind::TOKEN_INTERPOL_START || next == SyntaxKind::TOKEN_INTERPOL_END {
        GLUED
    } else {
        SPACED
    }
}

// Returns the white space between two children of parentheses. A call begins on their line, unless they are the last argument of a call or a value.
fn in_paren(place: Place, before: SyntaxKind, next: SyntaxKind) -> Spacing {
    let is_apart = matches!(place, Place::LastArgument | Place::Value);
    if before != SyntaxKind::TOKEN_L_PAREN {
        closing(SOFT)
    } else if next == SyntaxKind::NODE_APPLY && !is_apart {
        opening(GLUED)
    } else {
        opening(SOFT)
    }
}

// Returns the white space between two children of an operation.
fn in_operation(is_hung: bool, next: SyntaxKind) -> Spacing {
    if next >= SyntaxKind::NODE_APPLY {
        SPACED
    } else if is_hung {
        level(LINE)
    } else {
        Spacing {
            level: Level::Operator,
            ..LINE
        }
    }
}

/// Returns whether two items would become other tokens without white space between them: a path may begin with `-`, and a URI may contain a comma.
pub fn keeps_distance(before: SyntaxKind, next: SyntaxKind) -> bool {
    match next {
        SyntaxKind::NODE_PATH_ABS | SyntaxKind::NODE_PATH_REL => before == SyntaxKind::TOKEN_SUB,
        SyntaxKind::TOKEN_COMMA => before == SyntaxKind::TOKEN_URI,
        _ => false,
    }
}

/// Returns the same white space, with at least one space.
pub fn distant(spacing: Spacing) -> Spacing {
    Spacing {
        blanks: 1,
        ..spacing
    }
}

// Returns the same white space, with a line feed if one is allowed.
fn broken(spacing: Spacing) -> Spacing {
    Spacing {
        is_hard: spacing.can_break,
        ..spacing
    }
}

/// Returns the white space before the first item of a text, and after the last one.
pub fn around_text() -> Spacing {
    keeping_empty(level(GLUED))
}

// Returns the white space between a child of a node and the next one, if the node is not expanded.
fn unexpanded(frame: &Frame, before: SyntaxKind, next: Child) -> Spacing {
    match frame.kind {
        SyntaxKind::NODE_ROOT => around_text(),
        SyntaxKind::NODE_LIST | SyntaxKind::NODE_ATTR_SET => {
            bracketed(frame.place, before, next.kind)
        }
        SyntaxKind::NODE_LEGACY_LET if before == SyntaxKind::TOKEN_LET => SPACED,
        SyntaxKind::NODE_LEGACY_LET => hard(bracketed(frame.place, before, next.kind)),
        SyntaxKind::NODE_LET_IN => in_let(before, next.kind),
        SyntaxKind::NODE_WITH => in_prefix(before, next.kind),
        SyntaxKind::NODE_ASSERT if before == SyntaxKind::TOKEN_SEMICOLON => {
            hard(in_prefix(before, next.kind))
        }
        SyntaxKind::NODE_ASSERT => in_prefix(before, next.kind),
        SyntaxKind::NODE_IF_ELSE => in_conditional(before, next.kind),
        SyntaxKind::NODE_LAMBDA => in_lambda(frame.names, next),
        SyntaxKind::NODE_PATTERN => in_pattern(before, next.kind),
        SyntaxKind::NODE_PAT_ENTRY | SyntaxKind::NODE_HAS_ATTR => SPACED,
        SyntaxKind::NODE_INHERIT => in_inherit(before, next.kind),
        SyntaxKind::NODE_ATTRPATH_VALUE => in_entry(before, next),
        SyntaxKind::NODE_SELECT => in_selection(before, next.kind),
        SyntaxKind::NODE_DYNAMIC => in_dynamic(before, next.kind),
        SyntaxKind::NODE_APPLY if frame.is_plain => SPACED,
        SyntaxKind::NODE_APPLY => LINE,
        SyntaxKind::NODE_BIN_OP => in_operation(frame.is_hung, next.kind),
        SyntaxKind::NODE_PAREN => in_paren(frame.place, before, next.kind),
        _ => GLUED,
    }
}

/// Returns the white space between a child of a node and the next one. A conditional after `else` is broken, as the one around it.
pub fn spacing_in(frame: &Frame, before: SyntaxKind, next: Child) -> Spacing {
    let spacing = unexpanded(frame, before, next);
    let is_chained = frame.kind == SyntaxKind::NODE_IF_ELSE && !frame.is_own;
    if frame.is_expanded || (is_chained && !spacing.is_inner) {
        broken(spacing)
    } else {
        spacing
    }
}
