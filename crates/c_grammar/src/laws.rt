//! Laws of the grammar.

ghost use Rattle.c_grammar.specs.Breaking.{NothingBreaks, NoneBreaksBoth};
ghost use Rattle.c_grammar.specs.NameLaws.{DerivesPointer, DerivesProduct, NoTypeAsOperand, DerivesInt, DerivesHidden, DerivesTaker};
ghost use Rattle.c_grammar.specs.OperatorLaws.{DerivesSum, LeftBinds, RightBinds, NoSumInProduct};
ghost use Rattle.c_grammar.specs.StatementLaws.{ElseIsNearest};

/// From `a + b * c` the tree derives that has the product below the sum. An operator on the left of another one binds at least as
/// tightly as that, and one on the right more tightly: so no tree with a sum below a product derives, from any tokens.
pub fn operators_group()
    ensures sum { DerivesSum }
    ensures left { LeftBinds }
    ensures right { RightBinds }
    ensures wrong { NoSumInProduct }
{}

/// `T * x;` is a declaration where T stands for a type, and an expression statement where it doesn't; no name in an expression
/// stands for a type.
pub fn names_decide()
    ensures pointer { DerivesPointer }
    ensures product { DerivesProduct }
    ensures operand { NoTypeAsOperand }
{}

/// The trees of three units: one declaration; a parameter that hides a type in the body of its function; a type name in
/// parentheses as a parameter.
pub fn units_derive()
    ensures int { DerivesInt }
    ensures hidden { DerivesHidden }
    ensures taker { DerivesTaker }
{}

/// An `else` belongs to the nearest `if` that has none.
pub fn else_is_nearest()
    ensures { ElseIsNearest }
{}

/// A unit of no tokens breaks K01 at its end. No token breaks both K01 and L03.
pub fn grammar_is_broken()
    ensures nothing { NothingBreaks }
    ensures both { NoneBreaksBoth }
{}
