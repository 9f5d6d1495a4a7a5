//! Laws of typing.

ghost use Rattle.c_typed.specs.Worked.{SumIsTyped, NameIsUndeclared, PartIsBroken};

/// With `int a` the expression `a + 1` is typed as the sum of what is read from `a` and of the number 1.
pub fn expressions_are_typed()
    ensures { SumIsTyped }
{}

/// Where no `x` is declared, `x` breaks K19 at its place, and `a + x` breaks it there.
pub fn expressions_are_broken()
    ensures name { NameIsUndeclared }
    ensures part { PartIsBroken }
{}
