//! Controlling expressions: integral constant expressions (C90 6.4 and 6.8.1) by precedence, without recursion.

ghost use Rattle.std.specs.Prelude.{◌≡◌, IfErr, Some, None};
ghost use Rattle.cpp_cond.specs.Evaluating.{Completes, CompletesOne, IsValue, Pops, Steps};
ghost use Rattle.cpp_cond.specs.Expressions.{level_of};
ghost use Rattle.cpp_cond.specs.Reading.{and_begun, begin, behind, binary_begun, closed, closed_in, colon_begun, colon_in, complete, completed, divided, finish, holds_at, opened, opened_by, operated, operated_by, or_begun, question_begun, start, step, value_of, waiting};
ghost use Rattle.cpp_cond.specs.Terms.{IsEvaluated};
ghost use Rattle.cpp_cond.specs.Causes.{OfTerm};
ghost use Rattle.cpp_cond.specs.Values.{binary_value, choice_of, joint};
ghost use Rattle.cpp_expand.specs.Causes.{Refuses};
ghost use Rattle.cpp_cond.specs.declared.operator.Level.TheVariants as level;

use crate::operator::{Binary, Level, Unary};
use crate::term::{Term, no_expression, read_terms};
use crate::value::Value;
use c_lexer::Punctuator;
use fsc_base::{Place, Refused};
use pp_token::PpToken;
use std::alloc::{AllocError, AllocFailed, Global};
use std::marker::Model;

/// A construct that still waits for its last operand. Where a later operand is evaluated only by the value of an
/// earlier one, it keeps whether the whole construct is evaluated.
#[derive(Clone, Copy, Debug, PartialEq, Eq)]
enum Pending {
    Parenthesis,
    Unary(Unary),
    Binary(Binary, Value),
    /// `left &&`
    LogicalAnd {
        left: bool,
        is_live: bool,
    },
    /// `left ||`
    LogicalOr {
        left: bool,
        is_live: bool,
    },
    /// `condition ?`
    Question {
        condition: bool,
        is_live: bool,
    },
    /// `condition ? first :`
    Colon {
        condition: bool,
        first: Value,
        is_live: bool,
    },
}

/// A construct with its last operand: its value, and whether it is evaluated.
#[derive(Clone, Copy, Debug)]
struct Whole {
    value: Value,
    is_live: bool,
}

/// Why terms are not read on.
#[derive(Clone, Copy, Debug)]
enum Fault {
    /// They are no expression, or one that is evaluated and divides by zero.
    NoExpression,
    NoMemory,
}

impl From<AllocError> for Fault {
    ghost use Rattle.std.specs.Prelude.{◌≡◌};
    ghost use Rattle.cpp_cond.specs.declared.evaluation.Fault.TheVariants as faults;

    ghost from_gives = { λ _ fault. fault ≡ faults.NoMemory };

    fn from(_error: AllocError) -> Fault {
        Fault::NoMemory
    }
}

impl<T: Drop> From<AllocFailed<T>> for Fault {
    ghost use Rattle.std.specs.Prelude.{◌≡◌};
    ghost use Rattle.cpp_cond.specs.declared.evaluation.Fault.TheVariants as faults;

    ghost from_gives = { λ _ fault. fault ≡ faults.NoMemory };

    fn from(_error: AllocFailed<T>) -> Fault {
        Fault::NoMemory
    }
}

impl Pending {
    /// How tightly it holds the operand that it waits for.
    fn level(self) -> Level
        ensures { result ≡ holds_at self }
    {
        match self {
            Pending::Parenthesis => Level::Enclosing,
            Pending::Unary(_) => Level::Unary,
            Pending::Binary(operator, _) => operator.level(),
            Pending::LogicalAnd { .. } => Level::LogicalAnd,
            Pending::LogicalOr { .. } => Level::LogicalOr,
            Pending::Question { .. } => Level::Enclosing,
            Pending::Colon { .. } => Level::Conditional,
        }
    }

    /// The whole with its last operand, where what was read last is evaluated or not. None where it divides by zero and is
    /// evaluated, and for what ends by a token of its own.
    #[tactic(auto, unfolding(crate::specs::Reading::completed))]
    fn completed(self, is_live: bool, last: Value) -> Option<Whole>
        ensures { result ≡ completed is_live self last }
    {
        match self {
            Pending::Parenthesis => None,
            Pending::Unary(operator) => Some(Whole {
                value: operator.value(last),
                is_live,
            }),
            Pending::Binary(operator, left) => divided(operator, left, last, is_live),
            Pending::LogicalAnd { left, is_live } => Some(Whole {
                value: Value::truth(left && last.is_true()),
                is_live,
            }),
            Pending::LogicalOr { left, is_live } => Some(Whole {
                value: Value::truth(left || last.is_true()),
                is_live,
            }),
            Pending::Question { .. } => None,
            Pending::Colon {
                condition,
                first,
                is_live,
            } => Some(Whole {
                value: choice(condition, first, last),
                is_live,
            }),
        }
    }
}

/// A binary operator with both operands. Where it divides by zero and is not evaluated, its value is any.
fn divided(operator: Binary, left: Value, last: Value, is_live: bool) -> Option<Whole>
    ensures { result ≡ divided is_live (joint left last left.bits) (binary_value operator left last) }
{
    match operator.value(left, last) {
        Some(value) => Some(Whole { value, is_live }),
        None if is_live => None,
        None => Some(Whole {
            value: left.joint(last, left.bits),
            is_live,
        }),
    }
}

/// The choice of `?:` after the usual conversions of both.
fn choice(condition: bool, first: Value, second: Value) -> Value
    ensures { result ≡ choice_of condition first second }
{
    if condition {
        first.joint(second, first.bits)
    } else {
        first.joint(second, second.bits)
    }
}

/// An expression of which some terms were read.
#[derive(Drop)]
struct Evaluation {
    /// What waits for operands, the innermost last.
    pending: Vec<Pending>,
    /// The operand that was read last, or None where one has to come.
    operand: Option<Value>,
    /// Whether what comes next is evaluated.
    is_live: bool,
}

impl Model for Evaluation {
    ghost use Rattle.std.specs.Prelude.{reverse};
    ghost use Rattle.cpp_cond.specs.Reading.{Reading};

    ghost Value = { Reading };

    ghost view = { λ e. record { pending = reverse e.pending.items; operand = e.operand; live = e.is_live } };
}

impl Evaluation {
    /// Nothing was read.
    fn new(alloc: Global) -> Evaluation
        ensures { result ≡ start }
    {
        Evaluation {
            pending: Vec::new(alloc),
            operand: None,
            is_live: true,
        }
    }

    /// Takes out the innermost pending construct where it holds its operand at least as tightly as that.
    fn pop(&mut self, level: Level) -> Option<Pending>
        ensures { Pops level self.old self.new result }
    {
        let pending = *self.pending.last()?;
        if pending.level().reaches(level) {
            self.pending.pop()
        } else {
            None
        }
    }

    /// The value of a construct with its last operand. What comes next is evaluated where the construct is.
    fn completed(&mut self, pending: Pending, last: Value) -> Result<Value, Fault>
        ensures { CompletesOne pending last self.old self.new result }
    {
        match pending.completed(self.is_live, last) {
            Some(whole) => {
                self.is_live = whole.is_live;
                Ok(whole.value)
            }
            None => Err(Fault::NoExpression),
        }
    }

    /// Completes the constructs that hold their operand at least as tightly as that, the innermost first.
    #[tactic(auto, using(crate::proofs::ReadingLaws::complete_stops, crate::proofs::ReadingLaws::complete_more, crate::proofs::ReadingLaws::complete_fails))]
    fn complete(&mut self, operand: Value, level: Level) -> Result<Value, Fault>
        ensures { Completes level operand self.old self.new result }
    {
        let mut value = operand;
        while let Some(pending) = self.pop(level) {
            value = self.completed(pending, value)?;
        }
        Ok(value)
    }

    /// Lets a construct wait for its next operand, which is evaluated or not.
    fn wait(&mut self, pending: Pending, is_live: bool) -> Result<(), Fault>
        ensures { Steps (Some (waiting pending is_live self.old.pending)) self.new result }
    {
        self.pending.push(pending)?;
        self.operand = None;
        self.is_live = is_live;
        Ok(())
    }

    /// Reads an operator or punctuator where an operand has to begin.
    fn open(&mut self, punctuator: Punctuator) -> Result<(), Fault>
        requires { self.old.operand ≡ None }
        ensures { Steps (opened self.old punctuator) self.new result }
    {
        let is_live = self.is_live;
        match Unary::of(punctuator) {
            Some(operator) => self.wait(Pending::Unary(operator), is_live),
            None => self.parenthesis(punctuator),
        }
    }

    /// Reads a left parenthesis, where it is one.
    fn parenthesis(&mut self, punctuator: Punctuator) -> Result<(), Fault>
        requires { self.old.operand ≡ None }
        ensures { Steps (opened_by self.old None punctuator) self.new result }
    {
        let is_live = self.is_live;
        match punctuator {
            Punctuator::LeftParenthesis => self.wait(Pending::Parenthesis, is_live),
            _ => Err(Fault::NoExpression),
        }
    }

    /// Reads a term where an operand has to begin.
    fn begin(&mut self, term: Term) -> Result<(), Fault>
        requires { self.old.operand ≡ None }
        ensures { Steps (begin self.old term) self.new result }
    {
        match term {
            Term::Operand(value) => {
                self.operand = Some(value);
                Ok(())
            }
            Term::Operator(punctuator) => self.open(punctuator),
        }
    }

    /// Reads an operator that evaluates both of its operands.
    fn binary(&mut self, operand: Value, operator: Binary) -> Result<(), Fault>
        ensures { Steps (binary_begun operator (complete (level_of operator) self.old.pending self.old.live operand)) self.new result }
    {
        let left = self.complete(operand, operator.level())?;
        let is_live = self.is_live;
        self.wait(Pending::Binary(operator, left), is_live)
    }

    /// Reads `&&`: the right operand is evaluated where the left one is not 0.
    fn logical_and(&mut self, operand: Value) -> Result<(), Fault>
        ensures { Steps (and_begun (complete level.LogicalAnd self.old.pending self.old.live operand)) self.new result }
    {
        let left = self.complete(operand, Level::LogicalAnd)?.is_true();
        let is_live = self.is_live;
        self.wait(Pending::LogicalAnd { left, is_live }, is_live && left)
    }

    /// Reads `||`: the right operand is evaluated where the left one is 0.
    fn logical_or(&mut self, operand: Value) -> Result<(), Fault>
        ensures { Steps (or_begun (complete level.LogicalOr self.old.pending self.old.live operand)) self.new result }
    {
        let left = self.complete(operand, Level::LogicalOr)?.is_true();
        let is_live = self.is_live;
        self.wait(Pending::LogicalOr { left, is_live }, is_live && !left)
    }

    /// Reads `?`: the second operand is evaluated where the first is not 0.
    fn question(&mut self, operand: Value) -> Result<(), Fault>
        ensures { Steps (question_begun (complete level.LogicalOr self.old.pending self.old.live operand)) self.new result }
    {
        let condition = self.complete(operand, Level::LogicalOr)?.is_true();
        let is_live = self.is_live;
        self.wait(
            Pending::Question { condition, is_live },
            is_live && condition,
        )
    }

    /// Reads `:`: the third operand is evaluated where the first is 0.
    fn colon(&mut self, operand: Value) -> Result<(), Fault>
        ensures { Steps (colon_begun (complete level.Conditional self.old.pending self.old.live operand)) self.new result }
    {
        let first = self.complete(operand, Level::Conditional)?;
        self.second(first)
    }

    /// Lets a `?` whose second operand has that value wait for its third.
    fn second(&mut self, first: Value) -> Result<(), Fault>
        ensures { Steps (colon_in first self.old.pending) self.new result }
    {
        match self.pending.pop() {
            Some(Pending::Question { condition, is_live }) => {
                let colon = Pending::Colon {
                    condition,
                    first,
                    is_live,
                };
                self.wait(colon, is_live && !condition)
            }
            Some(Pending::Parenthesis) => Err(Fault::NoExpression),
            Some(Pending::Unary(_)) => Err(Fault::NoExpression),
            Some(Pending::Binary(_, _)) => Err(Fault::NoExpression),
            Some(Pending::LogicalAnd { .. }) => Err(Fault::NoExpression),
            Some(Pending::LogicalOr { .. }) => Err(Fault::NoExpression),
            Some(Pending::Colon { .. }) => Err(Fault::NoExpression),
            None => Err(Fault::NoExpression),
        }
    }

    /// Reads `)`.
    fn close(&mut self, operand: Value) -> Result<(), Fault>
        ensures { Steps (closed (complete level.Conditional self.old.pending self.old.live operand)) self.new result }
    {
        let value = self.complete(operand, Level::Conditional)?;
        self.close_around(value)
    }

    /// Takes out the parenthesis around a value, which is an operand then.
    fn close_around(&mut self, value: Value) -> Result<(), Fault>
        ensures { Steps (closed_in value self.old.live self.old.pending) self.new result }
    {
        match self.pending.pop() {
            Some(Pending::Parenthesis) => {
                self.operand = Some(value);
                Ok(())
            }
            Some(Pending::Unary(_)) => Err(Fault::NoExpression),
            Some(Pending::Binary(_, _)) => Err(Fault::NoExpression),
            Some(Pending::LogicalAnd { .. }) => Err(Fault::NoExpression),
            Some(Pending::LogicalOr { .. }) => Err(Fault::NoExpression),
            Some(Pending::Question { .. }) => Err(Fault::NoExpression),
            Some(Pending::Colon { .. }) => Err(Fault::NoExpression),
            None => Err(Fault::NoExpression),
        }
    }

    /// Reads an operator or punctuator behind an operand.
    fn operator(&mut self, operand: Value, punctuator: Punctuator) -> Result<(), Fault>
        ensures { Steps (operated self.old operand punctuator) self.new result }
    {
        match Binary::of(punctuator) {
            Some(operator) => self.binary(operand, operator),
            None => self.other(operand, punctuator),
        }
    }

    /// Reads one of `&&`, `||`, `?`, `:` and `)`, where it is one.
    fn other(&mut self, operand: Value, punctuator: Punctuator) -> Result<(), Fault>
        ensures { Steps (operated_by self.old operand None punctuator) self.new result }
    {
        match punctuator {
            Punctuator::AndAnd => self.logical_and(operand),
            Punctuator::OrOr => self.logical_or(operand),
            Punctuator::Question => self.question(operand),
            Punctuator::Colon => self.colon(operand),
            Punctuator::RightParenthesis => self.close(operand),
            _ => Err(Fault::NoExpression),
        }
    }

    /// Reads a term behind an operand.
    fn go_on(&mut self, operand: Value, term: Term) -> Result<(), Fault>
        ensures { Steps (behind self.old operand term) self.new result }
    {
        match term {
            Term::Operand(_) => Err(Fault::NoExpression),
            Term::Operator(punctuator) => self.operator(operand, punctuator),
        }
    }

    /// Reads a term.
    fn take(&mut self, term: Term) -> Result<(), Fault>
        ensures { Steps (step self.old term) self.new result }
    {
        match self.operand {
            None => self.begin(term),
            Some(operand) => self.go_on(operand, term),
        }
    }

    /// The value of the whole, at its end.
    fn finish(mut self) -> Result<Value, Fault>
        ensures { IsValue (finish self) result }
    {
        let Some(operand) = self.operand else {
            return Err(Fault::NoExpression);
        };
        let value = self.complete(operand, Level::Conditional)?;
        if self.pending.is_empty() {
            Ok(value)
        } else {
            Err(Fault::NoExpression)
        }
    }
}

/// The value of the integral constant expression that all of the terms are.
#[tactic(auto, unfolding(crate::specs::Reading::value_of))]
fn value(alloc: Global, terms: &[Term]) -> Result<Value, Fault>
    ensures { IsValue (value_of terms.now) result }
{
    let mut evaluation = Evaluation::new(alloc);
    let mut rest = terms;
    while let [term, behind @ ..] = rest {
        evaluation.take(*term)?;
        rest = behind;
    }
    evaluation.finish()
}

/// The value of the integral constant expression that all of the tokens are, in the line of that `#`. Refused by K35 at the
/// `#` where they are none or divide by zero, and where a token breaks K44, K45, L04 or L06 by itself.
pub fn evaluate(alloc: Global, tokens: &[PpToken], hash: Place) -> Result<Value, Refused>
    ensures evaluated { IsEvaluated tokens.now hash result }
    ensures refused { IfErr result (Refuses OfTerm) }
{
    let terms = read_terms(alloc, tokens, hash)?;
    match value(alloc, terms.as_slice()) {
        Ok(value) => Ok(value),
        Err(Fault::NoExpression) => Err(no_expression(hash)),
        Err(Fault::NoMemory) => Err(Refused::NoMemory),
    }
}
