//! What the accessors of a node return, as text.

use rnix::SyntaxToken;
use rnix::ast::{AstChildren, AstNode, Expr, HasEntry, InterpolPart, PathContent};
use std::alloc::{AllocError, Global};

/// The results of accessors, each as `name=text;`, with a dash for an absent one.
#[derive(Drop)]
pub struct Description {
    pub alloc: Global,
    written: String,
    refused: Option<AllocError>,
}

/// A type of nodes whose accessors are described.
pub trait Describe<'t>: AstNode<'t> {
    /// Writes what each accessor returns.
    fn describe(&self, out: &mut Description);
}

impl Description {
    /// Returns an empty description.
    pub fn new(alloc: Global) -> Description {
        Description {
            alloc,
            written: String::new(alloc),
            refused: None,
        }
    }

    /// Returns the description, or the error if an allocation failed.
    pub fn finish(self) -> Result<String, AllocError> {
        let Description {
            written,
            refused,
            ..
        } = self;
        match refused {
            Some(error) => Err(error),
            None => Ok(written),
        }
    }

    // Writes a text. If memory is refused, `finish` returns the error.
    fn write(&mut self, text: &str) {
        if let Err(error) = self.written.push_str(text) {
            self.refused = Some(error);
        }
    }

    /// Begins the result of an accessor.
    pub fn write_name(&mut self, name: &str) {
        if !self.written.is_empty() {
            self.write(" ");
        }
        self.write(name);
        self.write("=");
    }

    /// Writes one of several texts of a result.
    pub fn part(&mut self, text: &str) {
        self.write("(");
        self.write(text);
        self.write(")");
    }

    /// Ends a result of several texts; `any` tells whether there were any.
    pub fn end(&mut self, any: bool) {
        self.write(if any { ";" } else { "-;" });
    }

    /// Writes a text.
    pub fn text(&mut self, name: &str, found: Option<&str>) {
        self.write_name(name);
        self.write(found.unwrap_or("-"));
        self.write(";");
    }

    /// Writes the text of a token.
    pub fn token(&mut self, name: &str, found: Option<SyntaxToken<'_>>) {
        match found {
            Some(token) => self.text(name, Some(token.text())),
            None => self.text(name, None),
        }
    }

    /// Writes the text of a node.
    pub fn node<'t, T: AstNode<'t>>(&mut self, name: &str, found: Option<T>) {
        match found {
            Some(node) => self.text(name, Some(node.syntax().text())),
            None => self.text(name, None),
        }
    }

    /// Writes the text of an expression.
    pub fn expr(&mut self, name: &str, found: Option<Expr<'_>>) {
        self.node(name, found)
    }

    /// Writes the texts of all nodes of a type.
    pub fn all<'t, T: AstNode<'t>>(&mut self, name: &str, found: AstChildren<'t, T>) {
        self.write_name(name);
        let mut any = false;
        for node in found {
            self.part(node.syntax().text());
            any = true;
        }
        self.end(any)
    }

    /// Writes the entries of a node.
    pub fn entries<'t, T: HasEntry<'t>>(&mut self, node: &T) {
        self.all("entries", node.entries());
        self.all("attrpath_values", node.attrpath_values());
        self.all("inherits", node.inherits())
    }

    /// Writes the parts of a path.
    pub fn parts(&mut self, found: Result<Vec<InterpolPart<'_, PathContent<'_>>>, AllocError>) {
        let parts = match found {
            Ok(parts) => parts,
            Err(error) => {
                self.refused = Some(error);
                return;
            }
        };
        self.write_name("parts");
        for part in &parts {
            match part {
                InterpolPart::Literal(content) => self.part(content.text()),
                InterpolPart::Interpolation(node) => self.part(node.syntax().text()),
            }
        }
        self.end(!parts.is_empty())
    }
}
