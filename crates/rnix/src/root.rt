//! The tree of a text, with its errors.

ghost use Rattle.std.specs.Prelude.{◌≡◌, ◌<◌, ◌⊎◌, map, slice_get, [], Some, IfOk, IfErr, OnOk, OnErr};
ghost use Rattle.rnix_kinds.specs.Lexical.Tokens.{tokens_of};
ghost use Rattle.rnix_kinds.specs.declared.kinds.SyntaxKind.TheVariants.{NODE_ROOT};
ghost use Rattle.rnix_green.specs.Forest.{text_of};
ghost use Rattle.rnix_green.specs.Relatives.{IsNodeIn};
ghost use Rattle.rnix_green.specs.Splice.{HasOnlyChild, IsSpliced};
ghost use Rattle.rnix_green.specs.Tree.{forest_of, item};
ghost use Rattle.rnix_grammar.specs.Fault.{fault_of};
ghost use Rattle.rnix_grammar.specs.Parsed.{IsParsed};
ghost use Rattle.rnix.specs.ParseResult.{root_of};

use crate::ast::Root;
use rnix_grammar::ParseError;
use rnix_kinds::tokenize;
use rnix_parser::parse;
use rnix_tree::{GreenNode, SyntaxNode};
use std::alloc::{AllocError, Global};
use std::marker::Model;

/// The tree and the errors of a text. A text with errors has a tree too.
#[derive(Drop)]
pub struct Parse {
    green: GreenNode,
    errors: Vec<ParseError>,
}

impl Model for Parse {
    ghost use Rattle.std.specs.Prelude.{◌≡◌, map};
    ghost use Rattle.rnix_grammar.specs.Fault.{fault_of};
    ghost use Rattle.std.specs.Coded.{codes};
    ghost use Rattle.rnix_kinds.specs.contracts.kinds.SyntaxKind as kinds;
    ghost use Rattle.rnix_kinds.specs.declared.kinds.SyntaxKind.TheVariants as k;
    ghost use Rattle.rnix_green.specs.Tree.{tree_code};
    ghost use Rattle.rnix.specs.ParseResult.{Reading};

    ghost Value = { Reading };

    ghost coded = { Prim.hlevel (codes, tree_code, kinds.the_row.coded) };

    ghost view = { λ p. record { tree = p.green; faults = map fault_of p.errors.items } };

    ghost invariant = { λ p. p.green.kind ≡ k.NODE_ROOT };
}

impl<'t> Root<'t> {
    /// Parses a text. Ranges are in bytes. Fails only if an allocation fails.
    pub fn parse(alloc: Global, text: &str) -> Result<Parse, AllocError>
        ensures { IfOk result (λ read. IsParsed (tokens_of text.now) read.tree read.faults) }
    {
        let (green, errors) = parse(alloc, tokenize(alloc, text))?;
        Ok(Parse { green, errors })
    }
}

// Returns a copy of each error.
fn copies(alloc: Global, errors: &[ParseError]) -> Result<Vec<ParseError>, AllocError>
    ensures { IfOk result (λ copies. map fault_of copies.items ≡ map fault_of errors.now) }
{
    let mut copies = Vec::new(alloc);
    for error in errors {
        copies.push(error.try_clone()?)?;
    }
    Ok(copies)
}

impl Parse {
    /// Makes a parse without errors from a tree.
    pub fn without_errors(alloc: Global, green: GreenNode) -> Parse
        requires { green.kind ≡ NODE_ROOT }
        ensures { result ≡ record { tree = green; faults = [] } }
    {
        Parse {
            green,
            errors: Vec::new(alloc),
        }
    }

    /// Returns the tree as data.
    pub fn green(&self) -> &GreenNode
        ensures tree { result.now ≡ self.now.tree }
        ensures root { self.now.tree.kind ≡ NODE_ROOT }
    {
        &self.green
    }

    /// Puts the only child of the other tree's root in place of a node, like `set_node` of `GreenNode`. The errors stay as they are. The root may be replaced
    /// only by a root.
    pub fn set_node(&mut self, number: usize, other: &GreenNode) -> Result<(), AllocError>
        requires there { IsNodeIn self.old.tree number }
        requires single { HasOnlyChild other.now }
        requires root { (0 < number) ⊎ ((item other.now 1).kind ≡ NODE_ROOT) }
        ensures tree { OnOk result (IsSpliced self.old.tree number other.now self.new.tree) }
        ensures faults { OnOk result (self.new.faults ≡ self.old.faults) }
        ensures err { OnErr result (self.new ≡ self.old) }
    {
        self.green.set_node(number, other)?;
        Ok(())
    }

    /// Returns the text.
    pub fn text(&self) -> &str
        ensures { result.now ≡ text_of (forest_of self.now.tree) }
    {
        self.green.text_at(0)
    }

    /// Returns the root as an untyped node.
    pub fn syntax(&self) -> SyntaxNode<'_>
        ensures { result ≡ root_of self.now }
    {
        SyntaxNode::new_root(&self.green)
    }

    /// Returns the root.
    pub fn tree(&self) -> Root<'_>
        ensures { result ≡ root_of self.now }
    {
        Root::new(SyntaxNode::new_root(&self.green))
    }

    /// Returns the errors, in the order in which the parser found them. A parsed text has none exactly if every node has the children that its kind
    /// requires and no pattern names an argument twice.
    pub fn errors(&self) -> &[ParseError]
        ensures { map fault_of result.now ≡ self.now.faults }
    {
        &self.errors
    }

    /// Returns the root if there are no errors, else the first error.
    pub fn ok(&self) -> Result<Root<'_>, &ParseError>
        ensures root { IfOk result (λ root. (self.now.faults ≡ []) × (root ≡ root_of self.now)) }
        ensures error { IfErr result (λ error. slice_get self.now.faults 0 ≡ Some (fault_of error.now)) }
    {
        match self.errors.first() {
            Some(error) => Err(error),
            None => Ok(self.tree()),
        }
    }

    /// Returns a copy of the tree and the errors.
    pub fn try_clone(&self) -> Result<Parse, AllocError>
        ensures { IfOk result (λ copy. copy ≡ self.now) }
    {
        let green = self.green.try_clone()?;
        let errors = copies(*self.errors.allocator(), &self.errors)?;
        Ok(Parse { green, errors })
    }
}
