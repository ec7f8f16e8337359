//! The results of the accessors of literals, strings, paths and errors, and of nodes that are parts of expressions.

use crate::description::{Describe, Description};
use rnix::ast::{
    AstNode, AstToken, Attrpath, AttrpathValue, Dynamic, Error, IdentParam, Inherit, InheritFrom,
    Interpol, InterpolPart, Literal, LiteralKind, PatBind, PatEntry, PathAbs, PathHome, PathRel,
    PathSearch, Pattern, Str,
};

impl<'t> Describe<'t> for Attrpath<'t> {
    fn describe(&self, out: &mut Description) {
        out.all("attrs", self.attrs())
    }
}

impl<'t> Describe<'t> for AttrpathValue<'t> {
    fn describe(&self, out: &mut Description) {
        out.node("attrpath", self.attrpath());
        out.token("assign_token", self.assign_token());
        out.expr("value", self.value())
    }
}

impl<'t> Describe<'t> for Inherit<'t> {
    fn describe(&self, out: &mut Description) {
        out.token("inherit_token", self.inherit_token());
        out.node("from", self.from());
        out.all("attrs", self.attrs())
    }
}

impl<'t> Describe<'t> for InheritFrom<'t> {
    fn describe(&self, out: &mut Description) {
        out.token("l_paren_token", self.l_paren_token());
        out.expr("expr", self.expr());
        out.token("r_paren_token", self.r_paren_token())
    }
}

impl<'t> Describe<'t> for Dynamic<'t> {
    fn describe(&self, out: &mut Description) {
        out.token("interpol_start_token", self.interpol_start_token());
        out.expr("expr", self.expr());
        out.token("interpol_end_token", self.interpol_end_token())
    }
}

impl<'t> Describe<'t> for Interpol<'t> {
    fn describe(&self, out: &mut Description) {
        out.expr("expr", self.expr())
    }
}

impl<'t> Describe<'t> for IdentParam<'t> {
    fn describe(&self, out: &mut Description) {
        out.node("ident", self.ident())
    }
}

impl<'t> Describe<'t> for PatBind<'t> {
    fn describe(&self, out: &mut Description) {
        out.node("ident", self.ident())
    }
}

impl<'t> Describe<'t> for PatEntry<'t> {
    fn describe(&self, out: &mut Description) {
        out.node("ident", self.ident());
        out.token("question_token", self.question_token());
        out.expr("default", self.default())
    }
}

impl<'t> Describe<'t> for Pattern<'t> {
    fn describe(&self, out: &mut Description) {
        out.token("at_token", self.at_token());
        out.all("pat_entries", self.pat_entries());
        out.token("ellipsis_token", self.ellipsis_token());
        out.node("pat_bind", self.pat_bind())
    }
}

// An error has no parts: its text is written.
impl<'t> Describe<'t> for Error<'t> {
    fn describe(&self, out: &mut Description) {
        out.text("syntax", Some(self.syntax().text()))
    }
}

impl<'t> Describe<'t> for Literal<'t> {
    fn describe(&self, out: &mut Description) {
        match self.kind() {
            Some(LiteralKind::Float(float)) => out.text("float", Some(float.syntax().text())),
            Some(LiteralKind::Integer(integer)) => {
                out.text("integer", Some(integer.syntax().text()))
            }
            Some(LiteralKind::Uri(uri)) => out.text("uri", Some(uri.syntax().text())),
            None => out.text("kind", None),
        }
    }
}

impl<'t> Describe<'t> for Str<'t> {
    fn describe(&self, out: &mut Description) {
        out.write_name("parts");
        let mut any = false;
        for part in self.parts() {
            match part {
                InterpolPart::Literal(content) => out.part(content.syntax().text()),
                InterpolPart::Interpolation(node) => out.part(node.syntax().text()),
            }
            any = true;
        }
        out.end(any)
    }
}

impl<'t> Describe<'t> for PathAbs<'t> {
    fn describe(&self, out: &mut Description) {
        out.parts(self.parts(out.alloc))
    }
}

impl<'t> Describe<'t> for PathRel<'t> {
    fn describe(&self, out: &mut Description) {
        out.parts(self.parts(out.alloc))
    }
}

impl<'t> Describe<'t> for PathHome<'t> {
    fn describe(&self, out: &mut Description) {
        out.parts(self.parts(out.alloc))
    }
}

impl<'t> Describe<'t> for PathSearch<'t> {
    fn describe(&self, out: &mut Description) {
        match self.content() {
            Some(content) => out.text("content", Some(content.text())),
            None => out.text("content", None),
        }
    }
}
