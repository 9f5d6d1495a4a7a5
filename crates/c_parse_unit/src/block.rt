//! Compound statements (C90 6.6.2).

ghost use Rattle.c_cursor.specs.Taking.{Takes, MayTake};
ghost use Rattle.c_parse_unit.specs.Nesting.{IsDeeper};

use crate::declaration::declaration;
use crate::statement::Statements;
use c_cursor::{ParseRefused, Parser, Read};
use c_lexer::Punctuator;
use c_syntax::{Compound, Declaration, Statement};
use sqlite_items::Items;
use std::alloc::Global;

/// Reads one more declaration, where so many nodes may still lie one above the other.
pub(crate) fn next_declaration(
    alloc: Global,
    parser: &mut Parser<'_>,
    room: u32,
    declarations: &mut Read<Items<Declaration>>,
) -> Result<(), ParseRefused>
    ensures { Takes parser.old result parser.new }
{
    declarations.add(declaration(alloc, parser, room)?)
}

/// Declarations, as many as begin here.
fn declarations(
    alloc: Global,
    parser: &mut Parser<'_>,
    room: u32,
) -> Result<Read<Items<Declaration>>, ParseRefused>
    ensures { MayTake parser.old result parser.new }
{
    let mut declarations = Read::none(alloc);
    'more: while parser.begins_declaration() {
        next_declaration(alloc, parser, room, &mut declarations)?;
    }
    Ok(declarations)
}

impl<F: Fn(Global, &mut Parser<'_>, u32) -> Result<Read<Statement>, ParseRefused>> Statements<F> {
    /// A compound statement, which has a scope of its own. Its height is that of the highest thing in it.
    pub(crate) fn block(
        &self,
        parser: &mut Parser<'_>,
    ) -> Result<Read<Compound<Statement>>, ParseRefused>
        requires { IsDeeper self.now.room (F.pre self.now.statement) (F.post self.now.statement) }
        ensures { Takes parser.old result parser.new }
    {
        parser.names.enter()?;
        let block = self.braces(parser)?;
        parser.names.leave();
        Ok(block)
    }

    /// A compound statement, whose declarations are those of the scope around it. Its height is that of the highest thing in it.
    pub(crate) fn braces(
        &self,
        parser: &mut Parser<'_>,
    ) -> Result<Read<Compound<Statement>>, ParseRefused>
        requires { IsDeeper self.now.room (F.pre self.now.statement) (F.post self.now.statement) }
        ensures { Takes parser.old result parser.new }
    {
        let place = parser.place();
        parser.expect(Punctuator::LeftBrace)?;
        let declarations = declarations(self.alloc, parser, self.room)?;
        let statements = self.statements(parser)?;
        parser.expect(Punctuator::RightBrace)?;
        Ok(Read {
            node: Compound {
                place,
                declarations: declarations.node,
                statements: statements.node,
            },
            height: declarations.height.max(statements.height),
        })
    }

    /// Statements up to a closing brace.
    fn statements(&self, parser: &mut Parser<'_>) -> Result<Read<Items<Statement>>, ParseRefused>
        requires { IsDeeper self.now.room (F.pre self.now.statement) (F.post self.now.statement) }
        ensures { MayTake parser.old result parser.new }
    {
        let mut statements = Read::none(self.alloc);
        'more: while !parser.is_at(Punctuator::RightBrace) {
            self.next_statement(parser, &mut statements)?;
        }
        Ok(statements)
    }

    /// One statement.
    fn next_statement(
        &self,
        parser: &mut Parser<'_>,
        statements: &mut Read<Items<Statement>>,
    ) -> Result<(), ParseRefused>
        requires { IsDeeper self.now.room (F.pre self.now.statement) (F.post self.now.statement) }
        ensures { Takes parser.old result parser.new }
    {
        statements.add(self.deeper(parser)?)
    }
}
