//! Parameters (C90 6.5.4.3).

ghost use Rattle.c_cursor.specs.Taking.{Takes, MayTake, IsNested};

use crate::grammar::Grammar;
use c_cursor::{Goal, List, Mode, ParseRefused, Parser, Read, ReadDeclarator};
use c_lexer::Punctuator;
use c_parse_node::{declare, has_type, is_typedef, parameter, part};
use c_syntax::{Declarator, Expr, Parameter, PartForm, Specifier};
use sqlite_items::Items;
use std::alloc::Global;

/// Parameters that were read.
#[derive(Drop)]
struct Parameters {
    list: Read<Items<Parameter>>,
    /// Whether `...` followed.
    is_variadic: bool,
}

impl<
    E: Fn(Global, &mut Parser<'_>, u32, Goal) -> Result<Read<Expr>, ParseRefused>,
    S: Fn(Global, &mut Parser<'_>, u32, List) -> Result<Read<Items<Specifier>>, ParseRefused>,
    D: Fn(Global, &mut Parser<'_>, u32, Mode) -> Result<ReadDeclarator, ParseRefused>,
> Grammar<E, S, D> {
    /// Parameters behind a declarator and `(`, and the closing parenthesis. They have a scope of their own.
    pub(crate) fn parameters(
        &self,
        parser: &mut Parser<'_>,
        inner: ReadDeclarator,
    ) -> Result<ReadDeclarator, ParseRefused>
        requires specifiers { IsNested self.now.room (S.pre self.now.specifiers) (S.post self.now.specifiers) }
        requires declarator { IsNested self.now.room (D.pre self.now.declarator) (D.post self.now.declarator) }
        ensures { Takes parser.old result parser.new }
    {
        parser.names.enter()?;
        let read = self.parameter_list(parser)?;
        parser.expect_within(Punctuator::RightParenthesis, read.list.height, self.room)?;
        let declared = parser.names.leave_with()?;
        let height = read.list.height;
        let form = PartForm::Parameters(read.list.node, read.is_variadic);
        Ok(part::function(inner, form, height, declared)?)
    }

    /// Parameters with commas between them, and `...` where it ends them.
    fn parameter_list(&self, parser: &mut Parser<'_>) -> Result<Parameters, ParseRefused>
        requires specifiers { IsNested self.now.room (S.pre self.now.specifiers) (S.post self.now.specifiers) }
        requires declarator { IsNested self.now.room (D.pre self.now.declarator) (D.post self.now.declarator) }
        ensures { Takes parser.old result parser.new }
    {
        let mut list = Read::none(self.alloc);
        let mut is_variadic = false;
        self.parameter(parser, &mut list)?;
        'more: while parser.is_at(Punctuator::Comma) && !is_variadic {
            is_variadic = self.next_parameter(parser, &mut list)?;
        }
        Ok(Parameters { list, is_variadic })
    }

    /// A comma, and a parameter or `...` behind it. Answers whether it was `...`.
    fn next_parameter(
        &self,
        parser: &mut Parser<'_>,
        list: &mut Read<Items<Parameter>>,
    ) -> Result<bool, ParseRefused>
        requires specifiers { IsNested self.now.room (S.pre self.now.specifiers) (S.post self.now.specifiers) }
        requires declarator { IsNested self.now.room (D.pre self.now.declarator) (D.post self.now.declarator) }
        ensures { Takes parser.old result parser.new }
    {
        parser.take_within(list.height, self.room)?;
        if parser.eat(Punctuator::Ellipsis) {
            return Ok(true);
        }
        self.parameter(parser, list)?;
        Ok(false)
    }

    /// One parameter.
    fn parameter(
        &self,
        parser: &mut Parser<'_>,
        list: &mut Read<Items<Parameter>>,
    ) -> Result<(), ParseRefused>
        requires specifiers { IsNested self.now.room (S.pre self.now.specifiers) (S.post self.now.specifiers) }
        requires declarator { IsNested self.now.room (D.pre self.now.declarator) (D.post self.now.declarator) }
        ensures { Takes parser.old result parser.new }
    {
        let place = parser.place();
        let specifiers = self.deeper_specifiers(parser, List::WithStorage)?;
        let declarator = self.parameter_declarator(parser, specifiers.node.as_slice())?;
        list.add(parameter(place, specifiers, declarator))
    }

    /// The declarator of a parameter, abstract or not, where one stands. Behind it, its name is declared.
    fn parameter_declarator(
        &self,
        parser: &mut Parser<'_>,
        specifiers: &[Specifier],
    ) -> Result<Option<Read<Declarator>>, ParseRefused>
        requires { IsNested self.now.room (D.pre self.now.declarator) (D.post self.now.declarator) }
        ensures { MayTake parser.old result parser.new }
    {
        if parser.is_at(Punctuator::Comma) || parser.is_at(Punctuator::RightParenthesis) {
            return Ok(None);
        }
        let mode = Mode::Either {
            may_rename: has_type(specifiers),
        };
        let read = self.deeper_declarator(parser, mode)?.read();
        declare(&mut parser.names, &read.node, is_typedef(specifiers))?;
        Ok(Some(read))
    }
}
