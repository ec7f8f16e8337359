//! The parts of paths.

ghost use Rattle.std.specs.Prelude.{◌≡◌, IfOk, not};
ghost use Rattle.rnix.specs.StringParts.{path_parts, parts_of_path, is_search};

use crate::ast::attributes::Path;
use crate::ast::paths::{PathAbs, PathHome, PathRel};
use crate::ast::string_parts::InterpolPart;
use crate::ast::strings::Interpol;
use rnix_base::{PathContent, all_parts};
use rnix_tree::SyntaxNode;
use std::alloc::{AllocError, Global};

// Returns the contents and the interpolations of a path.
fn parts_of_node<'t>(
    alloc: Global,
    syntax: &SyntaxNode<'t>,
) -> Result<Vec<InterpolPart<'t, PathContent<'t>>>, AllocError>
    ensures { IfOk result (λ parts. parts.items ≡ path_parts syntax.now) }
{
    all_parts::<PathContent<'t>, Interpol<'t>>(alloc, syntax)
}

impl<'t> PathAbs<'t> {
    /// Returns the contents and interpolations of the path, in order. Other children are left out.
    pub fn parts(&self, alloc: Global) -> Result<Vec<InterpolPart<'t, PathContent<'t>>>, AllocError>
        ensures { IfOk result (λ parts. parts.items ≡ path_parts self.now) }
    {
        parts_of_node(alloc, &self.syntax)
    }
}

impl<'t> PathRel<'t> {
    /// Returns the contents and interpolations of the path, in order. Other children are left out.
    pub fn parts(&self, alloc: Global) -> Result<Vec<InterpolPart<'t, PathContent<'t>>>, AllocError>
        ensures { IfOk result (λ parts. parts.items ≡ path_parts self.now) }
    {
        parts_of_node(alloc, &self.syntax)
    }
}

impl<'t> PathHome<'t> {
    /// Returns the contents and interpolations of the path, in order. Other children are left out.
    pub fn parts(&self, alloc: Global) -> Result<Vec<InterpolPart<'t, PathContent<'t>>>, AllocError>
        ensures { IfOk result (λ parts. parts.items ≡ path_parts self.now) }
    {
        parts_of_node(alloc, &self.syntax)
    }
}

impl<'t> Path<'t> {
    /// Returns the parts of the path; of a search path, its content alone.
    pub fn parts(&self, alloc: Global) -> Result<Vec<InterpolPart<'t, PathContent<'t>>>, AllocError>
        ensures { IfOk result (λ parts. parts.items ≡ parts_of_path self.now) }
    {
        match self {
            Path::PathAbs(path) => path.parts(alloc),
            Path::PathRel(path) => path.parts(alloc),
            Path::PathHome(path) => path.parts(alloc),
            Path::PathSearch(path) => {
                let mut parts = Vec::new(alloc);
                if let Some(content) = path.content() {
                    parts.push(InterpolPart::Literal(content))?;
                }
                Ok(parts)
            }
        }
    }

    /// Returns whether the path is a search path, such as `<a>`.
    pub fn is_search(&self) -> bool
        ensures { result ≡ is_search self.now }
    {
        matches!(self, Path::PathSearch(_))
    }

    /// Returns whether the path may contain interpolations.
    pub fn is_interpolatable(&self) -> bool
        ensures { result ≡ not (is_search self.now) }
    {
        !self.is_search()
    }
}
