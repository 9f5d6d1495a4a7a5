//! Laws of the depth of trees.

ghost use Rattle.c_syntax.specs.Depth.{NameIsOne, ParenthesesAreOne, CommaIsFlat};

/// How depth is counted, on three forms of expressions: a name is one node; parentheses are one more than what stands in them; the
/// operands of a comma expression lie side by side.
pub fn depth_is_counted()
    ensures name { NameIsOne }
    ensures parentheses { ParenthesesAreOne }
    ensures comma { CommaIsFlat }
{}
