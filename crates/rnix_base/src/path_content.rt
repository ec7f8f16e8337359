//! Tokens of paths.

ghost use Rattle.std.specs.Prelude.{◌≡◌, true};
ghost use Rattle.rnix_kinds.specs.declared.kinds.SyntaxKind.TheVariants as k;
ghost use Rattle.rnix_green.specs.Equality.{same_kind};
ghost use Rattle.rnix_green.specs.Tree.{item_of, text_at};
ghost use Rattle.rnix_base.specs.Kinds.{is_path_token};

use crate::typed_token::{TokenType, TypedToken};
use rnix_kinds::SyntaxKind;

/// The text of a path between its interpolations: `./a` or `<a>`.
pub type PathContent<'t> = TypedToken<'t, PathContentType>;

/// The marker type of `PathContent`.
#[derive(Drop)]
pub enum PathContentType {}

impl TokenType for PathContentType {
    ghost kinds = { is_path_token };

    const NAME: &'static str = "PathContent";

    fn has_kind(kind: SyntaxKind) -> bool {
        matches!(
            kind,
            SyntaxKind::TOKEN_PATH_ABS
                | SyntaxKind::TOKEN_PATH_REL
                | SyntaxKind::TOKEN_PATH_HOME
                | SyntaxKind::TOKEN_PATH_SEARCH
        )
    }
}

impl<'t> PathContent<'t> {
    /// Returns the text as written.
    pub fn text(&self) -> &'t str
        ensures { result.now ≡ text_at self.now }
    {
        self.syntax.text()
    }

    /// Returns which of the four kinds of path token it is.
    pub fn path_kind(&self) -> SyntaxKind
        ensures kind { result ≡ (item_of self.now).kind }
        ensures path { is_path_token result ≡ true }
    {
        self.syntax.kind()
    }

    /// Returns whether the token is a TOKEN_PATH_ABS, such as `/a`.
    pub fn is_absolute(&self) -> bool
        ensures { result ≡ same_kind k.TOKEN_PATH_ABS (item_of self.now).kind }
    {
        self.path_kind() == SyntaxKind::TOKEN_PATH_ABS
    }

    /// Returns whether the token is a TOKEN_PATH_REL, such as `./a`.
    pub fn is_relative(&self) -> bool
        ensures { result ≡ same_kind k.TOKEN_PATH_REL (item_of self.now).kind }
    {
        self.path_kind() == SyntaxKind::TOKEN_PATH_REL
    }

    /// Returns whether the token is a TOKEN_PATH_HOME, such as `~/a`. After an interpolation, the kind of a token may differ from that of its path, as for
    /// `~/b` in `./a${x}~/b`.
    pub fn is_home(&self) -> bool
        ensures { result ≡ same_kind k.TOKEN_PATH_HOME (item_of self.now).kind }
    {
        self.path_kind() == SyntaxKind::TOKEN_PATH_HOME
    }

    /// Returns whether the token is a TOKEN_PATH_SEARCH, such as `<a>`.
    pub fn is_search(&self) -> bool
        ensures { result ≡ same_kind k.TOKEN_PATH_SEARCH (item_of self.now).kind }
    {
        self.path_kind() == SyntaxKind::TOKEN_PATH_SEARCH
    }
}
