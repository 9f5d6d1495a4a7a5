//! Statements (C90 6.6).

ghost use Rattle.c_check_statement.specs.Nested.{IsNested};

use crate::switching::Switches;
use c_check_declaration::{ROOM, needed, read_declaration, valued};
use c_const::is_integral_constant;
use c_conversion::{is_integer, is_scalar, promoted};
use c_rules::fitted;
use c_scope::Scope;
use c_syntax::{Compound, Declaration, Expr, Statement, StatementForm};
use c_tree::{TExpr, TStatement};
use c_types::{TypeId, TypeNode, VOID};
use check_refusal::{CheckRefused, CheckRule, broken};
use fsc_base::{Name, Place};
use sqlite_items::{Boxed, Items};
use std::alloc::{AllocError, Global};

fn boxed(alloc: Global, statement: TStatement) -> Result<Boxed<TStatement>, AllocError> {
    Boxed::new(alloc, statement)
}

/// A controlling expression. K49 at it where it is not scalar.
fn control(alloc: Global, scope: &mut Scope, e: &Expr) -> Result<TExpr, CheckRefused> {
    let value = needed(alloc, scope, e)?;
    if !is_scalar(&scope.types, value.tree.kind) {
        return Err(broken(CheckRule::K49, e.place));
    }
    Ok(value.tree)
}

/// What a switch tests, promoted. K49 at it where it is no integer.
fn selected(alloc: Global, scope: &mut Scope, e: &Expr) -> Result<TExpr, CheckRefused> {
    let value = needed(alloc, scope, e)?;
    if !is_integer(&scope.types, value.tree.kind) {
        return Err(broken(CheckRule::K49, e.place));
    }
    Ok(promoted(alloc, &scope.types, value)?.tree)
}

/// The value of a case. K47 at it where it is no integral constant.
fn case_value(alloc: Global, scope: &mut Scope, e: &Expr) -> Result<i64, CheckRefused> {
    let value = valued(alloc, scope, e)?;
    match is_integral_constant(&scope.types, &value.tree) {
        Some(value) => Ok(value),
        None => Err(broken(CheckRule::K47, e.place)),
    }
}

/// The label of a case. At the statement K50 where it stands in no switch, K48 where its switch has that case; K47 at the expression.
fn case_word(
    alloc: Global,
    scope: &mut Scope,
    switches: &mut Switches,
    e: &Expr,
    place: Place,
) -> Result<u32, CheckRefused> {
    if switches.is_empty() {
        return Err(broken(CheckRule::K50, place));
    }
    let value = case_value(alloc, scope, e)?;
    switches.add_case(value, place)
}

/// An expression that may be left out.
fn optional(
    alloc: Global,
    scope: &mut Scope,
    e: &Option<Expr>,
) -> Result<Option<TExpr>, CheckRefused> {
    match e {
        Some(e) => Ok(Some(valued(alloc, scope, e)?.tree)),
        None => Ok(None),
    }
}

/// A controlling expression that may be left out.
fn optional_control(
    alloc: Global,
    scope: &mut Scope,
    e: &Option<Expr>,
) -> Result<Option<TExpr>, CheckRefused> {
    match e {
        Some(e) => Ok(Some(control(alloc, scope, e)?)),
        None => Ok(None),
    }
}

/// The expressions in the head of a `for`.
#[derive(Drop)]
struct ForHead {
    start: Option<TExpr>,
    test: Option<TExpr>,
    step: Option<TExpr>,
}

/// What a `for` tests, and what it does behind each turn.
fn for_turns(
    alloc: Global,
    scope: &mut Scope,
    test: &Option<Expr>,
    step: &Option<Expr>,
) -> Result<(Option<TExpr>, Option<TExpr>), CheckRefused> {
    let test = optional_control(alloc, scope, test)?;
    let step = optional(alloc, scope, step)?;
    Ok((test, step))
}

/// The head of a `for` that begins with that.
fn for_head(
    alloc: Global,
    scope: &mut Scope,
    start: Option<TExpr>,
    given: (&Option<Expr>, &Option<Expr>),
) -> Result<ForHead, CheckRefused> {
    let (test, step) = for_turns(alloc, scope, given.0, given.1)?;
    Ok(ForHead { start, test, step })
}

/// `for` with that head and body.
fn looping(head: ForHead, body: Boxed<TStatement>) -> TStatement {
    let ForHead { start, test, step } = head;
    TStatement::For {
        start,
        test,
        step,
        body,
    }
}

/// An expression statement.
fn expression(
    alloc: Global,
    scope: &mut Scope,
    e: &Option<Expr>,
) -> Result<TStatement, CheckRefused> {
    match e {
        Some(e) => Ok(TStatement::Expression(valued(alloc, scope, e)?.tree)),
        None => Ok(TStatement::Empty),
    }
}

/// Whether a type without qualifiers is a struct or union.
fn is_record(scope: &Scope, kind: TypeId) -> bool {
    matches!(
        scope.types.node(kind),
        TypeNode::Struct(_) | TypeNode::Union(_)
    )
}

/// The statement that returns a value. A struct or union that is not complete can't come and is refused.
fn returning(scope: &Scope, e: TExpr, place: Place) -> Result<TStatement, CheckRefused> {
    let returns = scope.returns();
    if !is_record(scope, returns) {
        return Ok(TStatement::ReturnValue(e));
    }
    match scope.types.size(returns) {
        Some(size) => Ok(TStatement::ReturnRecord(e, size)),
        None => Err(broken(CheckRule::K18, place)),
    }
}

/// `return` with a value. K46 at the value where it does not fit what the function returns.
fn return_value(alloc: Global, scope: &mut Scope, e: &Expr) -> Result<TStatement, CheckRefused> {
    let value = needed(alloc, scope, e)?;
    let returns = scope.returns();
    let value = fitted(alloc, &scope.types, returns, value, CheckRule::K46, e.place)?;
    returning(scope, value.tree, e.place)
}

/// `return` with an expression. K51 at the statement where the function returns void.
fn return_expression(
    alloc: Global,
    scope: &mut Scope,
    e: &Expr,
    place: Place,
) -> Result<TStatement, CheckRefused> {
    if scope.returns() == VOID {
        let _ = valued(alloc, scope, e)?;
        return Err(broken(CheckRule::K51, place));
    }
    return_value(alloc, scope, e)
}

/// `return`.
fn return_statement(
    alloc: Global,
    scope: &mut Scope,
    e: &Option<Expr>,
    place: Place,
) -> Result<TStatement, CheckRefused> {
    match e {
        Some(e) => return_expression(alloc, scope, e, place),
        None => Ok(TStatement::Return),
    }
}

/// `break`. K50 at it outside of loops and switches.
fn break_statement(
    switches: &Switches,
    in_loop: bool,
    place: Place,
) -> Result<TStatement, CheckRefused> {
    if !in_loop && switches.is_empty() {
        return Err(broken(CheckRule::K50, place));
    }
    Ok(TStatement::Break)
}

/// `continue`. K50 at it outside of loops.
fn continue_statement(in_loop: bool, place: Place) -> Result<TStatement, CheckRefused> {
    if !in_loop {
        return Err(broken(CheckRule::K50, place));
    }
    Ok(TStatement::Continue)
}

/// The declarations of a block: the statements that initialise its automatic names.
fn declarations(
    alloc: Global,
    scope: &mut Scope,
    list: &[Declaration],
) -> Result<Items<TStatement>, CheckRefused> {
    let mut statements = Items::new(alloc);
    for one in list {
        read_declaration(alloc, scope, false, one, &mut statements)?;
    }
    Ok(statements)
}

/// What reads a statement one node deeper.
#[derive(Clone, Copy)]
pub(crate) struct Statements<F> {
    alloc: Global,
    /// How many nodes may still lie one above the other.
    room: u32,
    statement: F,
}

/// A statement. L03 where too many nodes lie above it.
pub(crate) fn statement(
    alloc: Global,
    scope: &mut Scope,
    switches: &mut Switches,
    room: u32,
    in_loop: bool,
    given: &Statement,
) -> Result<TStatement, CheckRefused> {
    if room == 0 {
        return Err(broken(CheckRule::L03, given.place));
    }
    Statements {
        alloc,
        room: room - 1,
        statement,
    }
    .row(scope, switches, in_loop, given)
}

impl<
    F: Fn(
        Global,
        &mut Scope,
        &mut Switches,
        u32,
        bool,
        &Statement,
    ) -> Result<TStatement, CheckRefused>,
> Statements<F> {
    /// A statement that stands in another.
    fn inner(
        &self,
        scope: &mut Scope,
        switches: &mut Switches,
        in_loop: bool,
        given: &Boxed<Statement>,
    ) -> Result<Boxed<TStatement>, CheckRefused>
        requires { IsNested self.now.room (F.pre self.now.statement) }
    {
        let typed = (self.statement)(self.alloc, scope, switches, self.room, in_loop, given.get())?;
        Ok(boxed(self.alloc, typed)?)
    }

    /// A labelled statement.
    fn labelled(
        &self,
        scope: &mut Scope,
        switches: &mut Switches,
        in_loop: bool,
        label: (&Name, Place),
        given: &Boxed<Statement>,
    ) -> Result<TStatement, CheckRefused>
        requires { IsNested self.now.room (F.pre self.now.statement) }
    {
        let label = scope.place_label(label.0, label.1)?;
        let inner = self.inner(scope, switches, in_loop, given)?;
        Ok(TStatement::Labelled(label, inner))
    }

    /// `case`.
    fn case(
        &self,
        scope: &mut Scope,
        switches: &mut Switches,
        in_loop: bool,
        label: (&Expr, Place),
        given: &Boxed<Statement>,
    ) -> Result<TStatement, CheckRefused>
        requires { IsNested self.now.room (F.pre self.now.statement) }
    {
        let value = case_word(self.alloc, scope, switches, label.0, label.1)?;
        let inner = self.inner(scope, switches, in_loop, given)?;
        Ok(TStatement::Case(value, inner))
    }

    /// `default`.
    fn default(
        &self,
        scope: &mut Scope,
        switches: &mut Switches,
        in_loop: bool,
        place: Place,
        given: &Boxed<Statement>,
    ) -> Result<TStatement, CheckRefused>
        requires { IsNested self.now.room (F.pre self.now.statement) }
    {
        switches.add_default(place)?;
        let inner = self.inner(scope, switches, in_loop, given)?;
        Ok(TStatement::Default(inner))
    }

    /// Adds the statements of a block.
    fn add_statements(
        &self,
        scope: &mut Scope,
        switches: &mut Switches,
        in_loop: bool,
        given: &[Statement],
        statements: &mut Items<TStatement>,
    ) -> Result<(), CheckRefused>
        requires { IsNested self.now.room (F.pre self.now.statement) }
    {
        for one in given {
            let typed = (self.statement)(self.alloc, scope, switches, self.room, in_loop, one)?;
            statements.push(typed)?;
        }
        Ok(())
    }

    /// The declarations and statements of a block, in the innermost scope.
    fn block(
        &self,
        scope: &mut Scope,
        switches: &mut Switches,
        in_loop: bool,
        given: &Compound<Statement>,
    ) -> Result<TStatement, CheckRefused>
        requires { IsNested self.now.room (F.pre self.now.statement) }
    {
        let mut statements = declarations(self.alloc, scope, given.declarations.as_slice())?;
        let given = given.statements.as_slice();
        self.add_statements(scope, switches, in_loop, given, &mut statements)?;
        Ok(TStatement::Compound(statements))
    }

    /// A compound statement.
    fn compound(
        &self,
        scope: &mut Scope,
        switches: &mut Switches,
        in_loop: bool,
        given: &Compound<Statement>,
    ) -> Result<TStatement, CheckRefused>
        requires { IsNested self.now.room (F.pre self.now.statement) }
    {
        scope.enter()?;
        let block = self.block(scope, switches, in_loop, given)?;
        scope.leave();
        Ok(block)
    }

    /// `if` with `else`.
    fn if_else(
        &self,
        scope: &mut Scope,
        switches: &mut Switches,
        in_loop: bool,
        test: TExpr,
        given: (&Boxed<Statement>, &Boxed<Statement>),
    ) -> Result<TStatement, CheckRefused>
        requires { IsNested self.now.room (F.pre self.now.statement) }
    {
        let then = self.inner(scope, switches, in_loop, given.0)?;
        let other = self.inner(scope, switches, in_loop, given.1)?;
        Ok(TStatement::IfElse(test, then, other))
    }

    /// `if`.
    fn if_statement(
        &self,
        scope: &mut Scope,
        switches: &mut Switches,
        in_loop: bool,
        test: &Expr,
        given: (&Boxed<Statement>, &Option<Boxed<Statement>>),
    ) -> Result<TStatement, CheckRefused>
        requires { IsNested self.now.room (F.pre self.now.statement) }
    {
        let test = control(self.alloc, scope, test)?;
        match given.1 {
            Some(other) => self.if_else(scope, switches, in_loop, test, (given.0, other)),
            None => {
                let then = self.inner(scope, switches, in_loop, given.0)?;
                Ok(TStatement::If(test, then))
            }
        }
    }

    /// `switch`. L13 at it where it has more than 511 cases.
    fn switch(
        &self,
        scope: &mut Scope,
        switches: &mut Switches,
        in_loop: bool,
        test: (&Expr, Place),
        given: &Boxed<Statement>,
    ) -> Result<TStatement, CheckRefused>
        requires { IsNested self.now.room (F.pre self.now.statement) }
    {
        let value = selected(self.alloc, scope, test.0)?;
        switches.begin()?;
        let inner = self.inner(scope, switches, in_loop, given)?;
        switches.end(test.1)?;
        Ok(TStatement::Switch(value, inner))
    }

    /// `while`.
    fn while_statement(
        &self,
        scope: &mut Scope,
        switches: &mut Switches,
        test: &Expr,
        given: &Boxed<Statement>,
    ) -> Result<TStatement, CheckRefused>
        requires { IsNested self.now.room (F.pre self.now.statement) }
    {
        let test = control(self.alloc, scope, test)?;
        let inner = self.inner(scope, switches, true, given)?;
        Ok(TStatement::While(test, inner))
    }

    /// `do`.
    fn do_while(
        &self,
        scope: &mut Scope,
        switches: &mut Switches,
        given: &Boxed<Statement>,
        test: &Expr,
    ) -> Result<TStatement, CheckRefused>
        requires { IsNested self.now.room (F.pre self.now.statement) }
    {
        let inner = self.inner(scope, switches, true, given)?;
        let test = control(self.alloc, scope, test)?;
        Ok(TStatement::DoWhile(inner, test))
    }

    /// `for`.
    fn for_statement(
        &self,
        scope: &mut Scope,
        switches: &mut Switches,
        head: (&Option<Expr>, &Option<Expr>, &Option<Expr>),
        given: &Boxed<Statement>,
    ) -> Result<TStatement, CheckRefused>
        requires { IsNested self.now.room (F.pre self.now.statement) }
    {
        let start = optional(self.alloc, scope, head.0)?;
        let head = for_head(self.alloc, scope, start, (head.1, head.2))?;
        self.for_body(scope, switches, head, given)
    }

    /// `for` with that head.
    fn for_body(
        &self,
        scope: &mut Scope,
        switches: &mut Switches,
        head: ForHead,
        given: &Boxed<Statement>,
    ) -> Result<TStatement, CheckRefused>
        requires { IsNested self.now.room (F.pre self.now.statement) }
    {
        let body = self.inner(scope, switches, true, given)?;
        Ok(looping(head, body))
    }

    /// A statement by its form.
    pub(crate) fn row(
        &self,
        scope: &mut Scope,
        switches: &mut Switches,
        in_loop: bool,
        given: &Statement,
    ) -> Result<TStatement, CheckRefused>
        requires { IsNested self.now.room (F.pre self.now.statement) }
    {
        let place = given.place;
        match &given.form {
            StatementForm::Label(name, inner) => {
                self.labelled(scope, switches, in_loop, (name, place), inner)
            }
            StatementForm::Case(e, inner) => {
                self.case(scope, switches, in_loop, (e, place), inner)
            }
            StatementForm::Default(inner) => {
                self.default(scope, switches, in_loop, place, inner)
            }
            StatementForm::Compound(block) => self.compound(scope, switches, in_loop, block),
            StatementForm::Expression(e) => expression(self.alloc, scope, e),
            StatementForm::If(test, then, other) => {
                self.if_statement(scope, switches, in_loop, test, (then, other))
            }
            StatementForm::Switch(e, inner) => {
                self.switch(scope, switches, in_loop, (e, place), inner)
            }
            StatementForm::While(test, inner) => {
                self.while_statement(scope, switches, test, inner)
            }
            StatementForm::DoWhile(inner, test) => self.do_while(scope, switches, inner, test),
            StatementForm::For(start, test, step, inner) => {
                self.for_statement(scope, switches, (start, test, step), inner)
            }
            StatementForm::Goto(name) => Ok(TStatement::Goto(scope.mention_label(name, place)?)),
            StatementForm::Continue => continue_statement(in_loop, place),
            StatementForm::Break => break_statement(switches, in_loop, place),
            StatementForm::Return(e) => return_statement(self.alloc, scope, e, place),
        }
    }
}

/// The body of a function, whose declarations stand in the innermost scope, that of its parameters.
pub fn body(
    alloc: Global,
    scope: &mut Scope,
    given: &Compound<Statement>,
) -> Result<TStatement, CheckRefused> {
    let mut switches = Switches::new(alloc);
    Statements {
        alloc,
        room: ROOM,
        statement,
    }
    .block(scope, &mut switches, false, given)
}
