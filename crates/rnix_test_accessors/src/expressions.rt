//! The results of the accessors of expressions with parts.

use crate::description::{Describe, Description};
use rnix::ast::{
    Apply, Assert, AttrSet, BinOp, BinOpKind, CurPos, HasAttr, Ident, IfElse, Lambda, LegacyLet,
    LetIn, List, Paren, Root, Select, UnaryOp, UnaryOpKind, With,
};

impl<'t> Describe<'t> for Ident<'t> {
    fn describe(&self, out: &mut Description) {
        out.token("ident_token", self.ident_token())
    }
}

impl<'t> Describe<'t> for CurPos<'t> {
    fn describe(&self, out: &mut Description) {
        out.token("cur_pos_token", self.cur_pos_token())
    }
}

impl<'t> Describe<'t> for Root<'t> {
    fn describe(&self, out: &mut Description) {
        out.expr("expr", self.expr())
    }
}

impl<'t> Describe<'t> for Paren<'t> {
    fn describe(&self, out: &mut Description) {
        out.token("l_paren_token", self.l_paren_token());
        out.expr("expr", self.expr());
        out.token("r_paren_token", self.r_paren_token())
    }
}

impl<'t> Describe<'t> for List<'t> {
    fn describe(&self, out: &mut Description) {
        out.token("l_brack_token", self.l_brack_token());
        out.all("items", self.items());
        out.token("r_brack_token", self.r_brack_token())
    }
}

impl<'t> Describe<'t> for AttrSet<'t> {
    fn describe(&self, out: &mut Description) {
        out.token("rec_token", self.rec_token());
        out.token("l_curly_token", self.l_curly_token());
        out.entries(self);
        out.token("r_curly_token", self.r_curly_token())
    }
}

impl<'t> Describe<'t> for LetIn<'t> {
    fn describe(&self, out: &mut Description) {
        out.token("let_token", self.let_token());
        out.entries(self);
        out.token("in_token", self.in_token());
        out.expr("body", self.body())
    }
}

impl<'t> Describe<'t> for LegacyLet<'t> {
    fn describe(&self, out: &mut Description) {
        out.token("let_token", self.let_token());
        out.token("curly_open_token", self.curly_open_token());
        out.entries(self);
        out.token("curly_close_token", self.curly_close_token())
    }
}

impl<'t> Describe<'t> for IfElse<'t> {
    fn describe(&self, out: &mut Description) {
        out.token("if_token", self.if_token());
        out.expr("condition", self.condition());
        out.token("then_token", self.then_token());
        out.expr("body", self.body());
        out.token("else_token", self.else_token());
        out.expr("else_body", self.else_body())
    }
}

impl<'t> Describe<'t> for Assert<'t> {
    fn describe(&self, out: &mut Description) {
        out.token("assert_token", self.assert_token());
        out.expr("condition", self.condition());
        out.expr("body", self.body())
    }
}

impl<'t> Describe<'t> for With<'t> {
    fn describe(&self, out: &mut Description) {
        out.token("with_token", self.with_token());
        out.expr("namespace", self.namespace());
        out.token("semicolon_token", self.semicolon_token());
        out.expr("body", self.body())
    }
}

impl<'t> Describe<'t> for Select<'t> {
    fn describe(&self, out: &mut Description) {
        out.expr("expr", self.expr());
        out.token("dot_token", self.dot_token());
        out.node("attrpath", self.attrpath());
        out.token("or_token", self.or_token());
        out.expr("default_expr", self.default_expr())
    }
}

impl<'t> Describe<'t> for HasAttr<'t> {
    fn describe(&self, out: &mut Description) {
        out.expr("expr", self.expr());
        out.token("question_token", self.question_token());
        out.node("attrpath", self.attrpath())
    }
}

impl<'t> Describe<'t> for Lambda<'t> {
    fn describe(&self, out: &mut Description) {
        out.node("param", self.param());
        out.token("token_colon", self.token_colon());
        out.expr("body", self.body())
    }
}

impl<'t> Describe<'t> for Apply<'t> {
    fn describe(&self, out: &mut Description) {
        out.expr("lambda", self.lambda());
        out.expr("argument", self.argument())
    }
}

impl<'t> Describe<'t> for BinOp<'t> {
    fn describe(&self, out: &mut Description) {
        out.expr("lhs", self.lhs());
        out.text("operator", self.operator().map(binary));
        out.expr("rhs", self.rhs())
    }
}

impl<'t> Describe<'t> for UnaryOp<'t> {
    fn describe(&self, out: &mut Description) {
        out.text("operator", self.operator().map(unary));
        out.expr("expr", self.expr())
    }
}

// The name of an operator between two operands.
fn binary(operator: BinOpKind) -> &'static str {
    match operator {
        BinOpKind::Concat => "Concat",
        BinOpKind::Update => "Update",
        BinOpKind::Add => "Add",
        BinOpKind::Sub => "Sub",
        BinOpKind::Mul => "Mul",
        BinOpKind::Div => "Div",
        BinOpKind::And => "And",
        BinOpKind::Equal => "Equal",
        BinOpKind::Implication => "Implication",
        BinOpKind::Less => "Less",
        BinOpKind::LessOrEq => "LessOrEq",
        BinOpKind::More => "More",
        BinOpKind::MoreOrEq => "MoreOrEq",
        BinOpKind::NotEqual => "NotEqual",
        BinOpKind::Or => "Or",
        BinOpKind::PipeRight => "PipeRight",
        BinOpKind::PipeLeft => "PipeLeft",
    }
}

// The name of an operator before its operand.
fn unary(operator: UnaryOpKind) -> &'static str {
    match operator {
        UnaryOpKind::Invert => "Invert",
        UnaryOpKind::Negate => "Negate",
    }
}
