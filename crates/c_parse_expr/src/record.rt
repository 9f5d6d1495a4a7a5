//! Structs and unions, and their members (C90 6.5.2.1).

ghost use Rattle.c_cursor.specs.Taking.{Takes, IsNested};

use crate::grammar::Grammar;
use c_cursor::{Goal, List, Mode, ParseRefused, Parser, Read, ReadDeclarator};
use c_lexer::Punctuator;
use c_parse_node::enumeration::tag;
use c_parse_node::{has_type, record};
use c_syntax::{Declarator, Expr, Field, FieldDeclarator, RecordKind, Specifier};
use fsc_base::{Name, Place};
use sqlite_items::Items;
use std::alloc::Global;

impl<
    E: Fn(Global, &mut Parser<'_>, u32, Goal) -> Result<Read<Expr>, ParseRefused>,
    S: Fn(Global, &mut Parser<'_>, u32, List) -> Result<Read<Items<Specifier>>, ParseRefused>,
    D: Fn(Global, &mut Parser<'_>, u32, Mode) -> Result<ReadDeclarator, ParseRefused>,
> Grammar<E, S, D> {
    /// `struct` or `union`, with a tag, a body or both.
    pub(crate) fn record(
        &self,
        parser: &mut Parser<'_>,
        kind: RecordKind,
    ) -> Result<Read<Specifier>, ParseRefused>
        requires expr { IsNested self.now.room (E.pre self.now.expr) (E.post self.now.expr) }
        requires specifiers { IsNested self.now.room (S.pre self.now.specifiers) (S.post self.now.specifiers) }
        requires declarator { IsNested self.now.room (D.pre self.now.declarator) (D.post self.now.declarator) }
        ensures { Takes parser.old result parser.new }
    {
        let place = parser.place();
        parser.take()?;
        let tag = tag(self.alloc, parser)?;
        if parser.is_at(Punctuator::LeftBrace) {
            self.record_in_braces(parser, place, kind, tag)
        } else {
            record::record_tag(parser, place, kind, tag)
        }
    }

    /// The body of a struct or union.
    fn record_in_braces(
        &self,
        parser: &mut Parser<'_>,
        place: Place,
        kind: RecordKind,
        tag: Option<Name>,
    ) -> Result<Read<Specifier>, ParseRefused>
        requires expr { IsNested self.now.room (E.pre self.now.expr) (E.post self.now.expr) }
        requires specifiers { IsNested self.now.room (S.pre self.now.specifiers) (S.post self.now.specifiers) }
        requires declarator { IsNested self.now.room (D.pre self.now.declarator) (D.post self.now.declarator) }
        ensures { Takes parser.old result parser.new }
    {
        parser.take_within(2, self.room)?;
        let fields = self.fields(parser)?;
        parser.expect(Punctuator::RightBrace)?;
        Ok(record::record_body(place, kind, tag, fields))
    }

    /// Declarations of members up to a closing brace, one at least.
    fn fields(&self, parser: &mut Parser<'_>) -> Result<Read<Items<Field>>, ParseRefused>
        requires expr { IsNested self.now.room (E.pre self.now.expr) (E.post self.now.expr) }
        requires specifiers { IsNested self.now.room (S.pre self.now.specifiers) (S.post self.now.specifiers) }
        requires declarator { IsNested self.now.room (D.pre self.now.declarator) (D.post self.now.declarator) }
        ensures { Takes parser.old result parser.new }
    {
        let mut fields = Read::none(self.alloc);
        self.field(parser, &mut fields)?;
        'more: while !parser.is_at(Punctuator::RightBrace) {
            self.field(parser, &mut fields)?;
        }
        Ok(fields)
    }

    /// One declaration of members.
    fn field(
        &self,
        parser: &mut Parser<'_>,
        fields: &mut Read<Items<Field>>,
    ) -> Result<(), ParseRefused>
        requires expr { IsNested self.now.room (E.pre self.now.expr) (E.post self.now.expr) }
        requires specifiers { IsNested self.now.room (S.pre self.now.specifiers) (S.post self.now.specifiers) }
        requires declarator { IsNested self.now.room (D.pre self.now.declarator) (D.post self.now.declarator) }
        ensures { Takes parser.old result parser.new }
    {
        let place = parser.place();
        let specifiers = self.deeper_specifiers(parser, List::WithoutStorage)?;
        let mode = Mode::Named {
            may_rename: has_type(specifiers.node.as_slice()),
        };
        let declarators = self.members(parser, mode, specifiers.height)?;
        let read = record::field(place, specifiers.node, declarators);
        parser.expect_within(Punctuator::Semicolon, read.height, self.room)?;
        fields.add(read)
    }

    /// Members with commas between them, beside specifiers of that height.
    fn members(
        &self,
        parser: &mut Parser<'_>,
        mode: Mode,
        height: u32,
    ) -> Result<Read<Items<FieldDeclarator>>, ParseRefused>
        requires expr { IsNested self.now.room (E.pre self.now.expr) (E.post self.now.expr) }
        requires declarator { IsNested self.now.room (D.pre self.now.declarator) (D.post self.now.declarator) }
        ensures { Takes parser.old result parser.new }
    {
        let mut members = Read::none(self.alloc);
        members.height = height;
        self.field_member(parser, mode, &mut members)?;
        'more: while parser.is_at(Punctuator::Comma) {
            self.next_member(parser, mode, &mut members)?;
        }
        Ok(members)
    }

    /// A comma, and the member behind it.
    fn next_member(
        &self,
        parser: &mut Parser<'_>,
        mode: Mode,
        members: &mut Read<Items<FieldDeclarator>>,
    ) -> Result<(), ParseRefused>
        requires expr { IsNested self.now.room (E.pre self.now.expr) (E.post self.now.expr) }
        requires declarator { IsNested self.now.room (D.pre self.now.declarator) (D.post self.now.declarator) }
        ensures { Takes parser.old result parser.new }
    {
        parser.take_within(members.height.saturating_add(1), self.room)?;
        self.field_member(parser, mode, members)
    }

    /// One member, or a bit-field without a declarator.
    fn field_member(
        &self,
        parser: &mut Parser<'_>,
        mode: Mode,
        members: &mut Read<Items<FieldDeclarator>>,
    ) -> Result<(), ParseRefused>
        requires expr { IsNested self.now.room (E.pre self.now.expr) (E.post self.now.expr) }
        requires declarator { IsNested self.now.room (D.pre self.now.declarator) (D.post self.now.declarator) }
        ensures { Takes parser.old result parser.new }
    {
        if parser.is_at(Punctuator::Colon) {
            self.unnamed_bit_field(parser, members)
        } else {
            self.named_member(parser, mode, members)
        }
    }

    /// A bit-field without a declarator.
    fn unnamed_bit_field(
        &self,
        parser: &mut Parser<'_>,
        members: &mut Read<Items<FieldDeclarator>>,
    ) -> Result<(), ParseRefused>
        requires { IsNested self.now.room (E.pre self.now.expr) (E.post self.now.expr) }
        ensures { Takes parser.old result parser.new }
    {
        let place = parser.place();
        parser.take_within(1, self.room)?;
        let width = self.deeper(parser, Goal::Constant)?;
        members.add(record::bit_field(self.alloc, place, None, 0, width)?)
    }

    /// A member with a declarator.
    fn named_member(
        &self,
        parser: &mut Parser<'_>,
        mode: Mode,
        members: &mut Read<Items<FieldDeclarator>>,
    ) -> Result<(), ParseRefused>
        requires expr { IsNested self.now.room (E.pre self.now.expr) (E.post self.now.expr) }
        requires declarator { IsNested self.now.room (D.pre self.now.declarator) (D.post self.now.declarator) }
        ensures { Takes parser.old result parser.new }
    {
        let place = parser.place();
        let declarator = self.deeper_declarator(parser, mode)?.read();
        if parser.is_at(Punctuator::Colon) {
            self.width(parser, place, declarator, members)
        } else {
            members.add(record::member(place, declarator))
        }
    }

    /// The width of a bit-field behind its declarator.
    fn width(
        &self,
        parser: &mut Parser<'_>,
        place: Place,
        declarator: Read<Declarator>,
        members: &mut Read<Items<FieldDeclarator>>,
    ) -> Result<(), ParseRefused>
        requires { IsNested self.now.room (E.pre self.now.expr) (E.post self.now.expr) }
        ensures { Takes parser.old result parser.new }
    {
        parser.take_within(declarator.height, self.room)?;
        let width = self.deeper(parser, Goal::Constant)?;
        members.add(record::bit_field(
            self.alloc,
            place,
            Some(declarator.node),
            declarator.height,
            width,
        )?)
    }
}
