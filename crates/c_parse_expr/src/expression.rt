//! Expressions with operators between operands, and with commas (C90 6.3.5 to 6.3.17).

ghost use Rattle.c_cursor.specs.Taking.{Takes, MayTake, IsNested};

use crate::grammar::Grammar;
use c_cursor::{Goal, List, Mode, ParseRefused, Parser, Read, ReadDeclarator, level_of};
use c_lexer::Punctuator;
use c_parse_node::node;
use c_syntax::{Binary, Expr, Specifier};
use sqlite_items::Items;
use std::alloc::Global;

/// The operands of `?` that one is chosen of.
#[derive(Drop)]
struct Branches {
    yes: Read<Expr>,
    no: Read<Expr>,
}

impl<
    E: Fn(Global, &mut Parser<'_>, u32, Goal) -> Result<Read<Expr>, ParseRefused>,
    S: Fn(Global, &mut Parser<'_>, u32, List) -> Result<Read<Items<Specifier>>, ParseRefused>,
    D: Fn(Global, &mut Parser<'_>, u32, Mode) -> Result<ReadDeclarator, ParseRefused>,
> Grammar<E, S, D> {
    /// The expression that is asked for.
    pub(crate) fn goal(
        &self,
        parser: &mut Parser<'_>,
        goal: Goal,
    ) -> Result<Read<Expr>, ParseRefused>
        requires expr { IsNested self.now.room (E.pre self.now.expr) (E.post self.now.expr) }
        requires specifiers { IsNested self.now.room (S.pre self.now.specifiers) (S.post self.now.specifiers) }
        requires declarator { IsNested self.now.room (D.pre self.now.declarator) (D.post self.now.declarator) }
        ensures { Takes parser.old result parser.new }
    {
        match goal {
            Goal::Expr => self.comma(parser),
            Goal::Assign => self.assign(parser),
            Goal::Constant => self.conditional(parser),
            Goal::Binary(least) => self.binary(parser, least),
            Goal::Cast => self.cast(parser),
            Goal::Unary => self.unary(parser),
        }
    }

    /// Assignment expressions with commas between them (C90 6.3.17).
    fn comma(&self, parser: &mut Parser<'_>) -> Result<Read<Expr>, ParseRefused>
        requires expr { IsNested self.now.room (E.pre self.now.expr) (E.post self.now.expr) }
        requires specifiers { IsNested self.now.room (S.pre self.now.specifiers) (S.post self.now.specifiers) }
        requires declarator { IsNested self.now.room (D.pre self.now.declarator) (D.post self.now.declarator) }
        ensures { Takes parser.old result parser.new }
    {
        let first = self.assign(parser)?;
        if parser.is_at(Punctuator::Comma) {
            self.commas(parser, first)
        } else {
            Ok(first)
        }
    }

    /// What follows the first operand of commas.
    fn commas(&self, parser: &mut Parser<'_>, first: Read<Expr>) -> Result<Read<Expr>, ParseRefused>
        requires { IsNested self.now.room (E.pre self.now.expr) (E.post self.now.expr) }
        ensures { MayTake parser.old result parser.new }
    {
        let place = first.node.place;
        let mut parts = Read::none(self.alloc);
        parts.add(first)?;
        'more: while parser.is_at(Punctuator::Comma) {
            self.comma_part(parser, &mut parts)?;
        }
        Ok(node::comma(place, parts))
    }

    /// A comma, and the operand behind it.
    fn comma_part(
        &self,
        parser: &mut Parser<'_>,
        parts: &mut Read<Items<Expr>>,
    ) -> Result<(), ParseRefused>
        requires { IsNested self.now.room (E.pre self.now.expr) (E.post self.now.expr) }
        ensures { Takes parser.old result parser.new }
    {
        parser.take_within(parts.height, self.room)?;
        parts.add(self.deeper(parser, Goal::Assign)?)
    }

    /// A conditional expression (C90 6.3.15).
    pub(crate) fn conditional(&self, parser: &mut Parser<'_>) -> Result<Read<Expr>, ParseRefused>
        requires expr { IsNested self.now.room (E.pre self.now.expr) (E.post self.now.expr) }
        requires specifiers { IsNested self.now.room (S.pre self.now.specifiers) (S.post self.now.specifiers) }
        requires declarator { IsNested self.now.room (D.pre self.now.declarator) (D.post self.now.declarator) }
        ensures { Takes parser.old result parser.new }
    {
        let test = self.binary(parser, 0)?;
        if parser.is_at(Punctuator::Question) {
            self.choice(parser, test)
        } else {
            Ok(test)
        }
    }

    /// `?` behind what is tested, and the two operands behind it.
    fn choice(&self, parser: &mut Parser<'_>, test: Read<Expr>) -> Result<Read<Expr>, ParseRefused>
        requires { IsNested self.now.room (E.pre self.now.expr) (E.post self.now.expr) }
        ensures { Takes parser.old result parser.new }
    {
        parser.take_within(test.height, self.room)?;
        let branches = self.branches(parser)?;
        Ok(node::conditional(self.alloc, test, branches.yes, branches.no)?)
    }

    /// The two operands behind `?`, with a colon between them.
    fn branches(&self, parser: &mut Parser<'_>) -> Result<Branches, ParseRefused>
        requires { IsNested self.now.room (E.pre self.now.expr) (E.post self.now.expr) }
        ensures { Takes parser.old result parser.new }
    {
        let yes = self.deeper(parser, Goal::Expr)?;
        parser.expect(Punctuator::Colon)?;
        let no = self.deeper(parser, Goal::Constant)?;
        Ok(Branches { yes, no })
    }

    /// Operands with operators between them that bind at least so tightly (C90 6.3.5 to 6.3.14).
    pub(crate) fn binary(
        &self,
        parser: &mut Parser<'_>,
        least: u8,
    ) -> Result<Read<Expr>, ParseRefused>
        requires expr { IsNested self.now.room (E.pre self.now.expr) (E.post self.now.expr) }
        requires specifiers { IsNested self.now.room (S.pre self.now.specifiers) (S.post self.now.specifiers) }
        requires declarator { IsNested self.now.room (D.pre self.now.declarator) (D.post self.now.declarator) }
        ensures { Takes parser.old result parser.new }
    {
        let first = self.cast(parser)?;
        self.operators(parser, least, first)
    }

    /// The operators behind the first operand, which group to the left.
    fn operators(
        &self,
        parser: &mut Parser<'_>,
        least: u8,
        first: Read<Expr>,
    ) -> Result<Read<Expr>, ParseRefused>
        requires { IsNested self.now.room (E.pre self.now.expr) (E.post self.now.expr) }
        ensures { MayTake parser.old result parser.new }
    {
        let mut left = first;
        'more: while let Some(operator) = parser.operator(least) {
            left = self.operation(parser, operator, left)?;
        }
        Ok(left)
    }

    /// An operator behind its left operand, and the right one.
    fn operation(
        &self,
        parser: &mut Parser<'_>,
        operator: Binary,
        left: Read<Expr>,
    ) -> Result<Read<Expr>, ParseRefused>
        requires { IsNested self.now.room (E.pre self.now.expr) (E.post self.now.expr) }
        ensures { Takes parser.old result parser.new }
    {
        parser.take_within(left.height, self.room)?;
        let tighter = level_of(operator).saturating_add(1);
        let right = self.deeper(parser, Goal::Binary(tighter))?;
        Ok(node::binary(self.alloc, operator, left, right)?)
    }
}
