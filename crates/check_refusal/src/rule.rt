//! The rules that a typed reading of a tree can find broken.

ghost use Rattle.check_refusal.specs.Causes.{OfCheck};

use fsc_base::Rule;

/// A rule of declarations, types, expressions, initialisers and statements, or a limit that is theirs.
#[derive(Clone, Copy, Debug, PartialEq, Eq)]
pub enum CheckRule {
    /// A declaration declares no declarator, tag or enumerator.
    K02,
    /// A name without linkage, tag body, member or enumerator is declared twice in one scope and name space.
    K03,
    /// Two declarations of one object or function in one scope are incompatible, or its linkage changes.
    K04,
    /// A declaration has two storage classes.
    K05,
    /// The type specifiers are none of C90's sets.
    K06,
    /// A member has incomplete or function type.
    K07,
    /// A bit-field's type or width is wrong.
    K08,
    /// An enumerator is no integral constant of int.
    K09,
    /// An array size is no integral constant above 0, or its element is incomplete or a function.
    K10,
    /// A function returns an array or function.
    K11,
    /// A parameter's storage class is not register, a list of names stands outside a definition, or void is
    /// wrongly in a parameter list.
    K12,
    /// A qualifier is given twice.
    K13,
    /// An initialiser has too many items, a wrong type, a target that takes none, or is not constant where static.
    K14,
    /// Auto or register stands at file scope.
    K15,
    /// A name with internal linkage is defined twice, or used and not defined.
    K16,
    /// A function definition has a wrong declarator, return type, storage class, parameter name or old-style
    /// declaration.
    K17,
    /// An object that needs a complete type has none at the end of its declarator, of its init-declarator or, for a
    /// definition with zeros, of its unit.
    K18,
    /// An undeclared name is used other than as the called name.
    K19,
    /// A subscript has no pointer to a complete object with an integer.
    K20,
    /// A call's function, argument count or argument types are wrong.
    K21,
    /// `.` or `->` has no complete struct or union or no such member.
    K22,
    /// `++` or `--` has no modifiable lvalue, or one that is neither an integer nor a pointer to a complete object
    /// type.
    K23,
    /// `&` has no lvalue or function, or one that is register or a bit-field.
    K24,
    /// `*` has no pointer.
    K25,
    /// Unary `+ - ~ !` has a wrong operand.
    K26,
    /// `sizeof` has a function, incomplete type or bit-field.
    K27,
    /// A cast is from or to a type that is not scalar, except to void.
    K28,
    /// A binary operator has wrong operands.
    K29,
    /// `?:` has wrong operands.
    K30,
    /// An assignment, initialiser, argument or return value does not fit its target, or its left side is not
    /// modifiable.
    K46,
    /// A constant expression is none.
    K47,
    /// Two cases are equal, two defaults, or two labels of one name.
    K48,
    /// A controlling expression is not scalar (switch: not integral).
    K49,
    /// Case, default, break, continue or goto has nothing to belong to.
    K50,
    /// `return` has a value in a void function.
    K51,
    /// A member, parameter or local is of a function type where C90 forbids it.
    K52,
    /// A void expression is used for its value.
    K53,
    /// A floating type or constant.
    L01,
    /// A syntax tree deeper than 256.
    L03,
    /// A type larger than 2^27 bytes.
    L05,
    /// A structure or union has no named member.
    L07,
    /// More than 250 parameters, automatic names and struct calls of a function, or more than 63 parameters or
    /// arguments.
    L08,
    /// A pending size above 200.
    L09,
    /// A struct as an argument in the variable part of a prototyped call.
    L11,
    /// A name that begins with `__fsc_` is declared, or used other than called as a primitive.
    L12,
    /// More than 511 cases in a switch.
    L13,
}

impl CheckRule {
    /// The rule among all rules.
    pub fn rule(self) -> Rule
        ensures { OfCheck result }
    {
        match self {
            CheckRule::K02 => Rule::K02,
            CheckRule::K03 => Rule::K03,
            CheckRule::K04 => Rule::K04,
            CheckRule::K05 => Rule::K05,
            CheckRule::K06 => Rule::K06,
            CheckRule::K07 => Rule::K07,
            CheckRule::K08 => Rule::K08,
            CheckRule::K09 => Rule::K09,
            CheckRule::K10 => Rule::K10,
            CheckRule::K11 => Rule::K11,
            CheckRule::K12 => Rule::K12,
            CheckRule::K13 => Rule::K13,
            CheckRule::K14 => Rule::K14,
            CheckRule::K15 => Rule::K15,
            CheckRule::K16 => Rule::K16,
            CheckRule::K17 => Rule::K17,
            CheckRule::K18 => Rule::K18,
            CheckRule::K19 => Rule::K19,
            CheckRule::K20 => Rule::K20,
            CheckRule::K21 => Rule::K21,
            CheckRule::K22 => Rule::K22,
            CheckRule::K23 => Rule::K23,
            CheckRule::K24 => Rule::K24,
            CheckRule::K25 => Rule::K25,
            CheckRule::K26 => Rule::K26,
            CheckRule::K27 => Rule::K27,
            CheckRule::K28 => Rule::K28,
            CheckRule::K29 => Rule::K29,
            CheckRule::K30 => Rule::K30,
            CheckRule::K46 => Rule::K46,
            CheckRule::K47 => Rule::K47,
            CheckRule::K48 => Rule::K48,
            CheckRule::K49 => Rule::K49,
            CheckRule::K50 => Rule::K50,
            CheckRule::K51 => Rule::K51,
            CheckRule::K52 => Rule::K52,
            CheckRule::K53 => Rule::K53,
            CheckRule::L01 => Rule::L01,
            CheckRule::L03 => Rule::L03,
            CheckRule::L05 => Rule::L05,
            CheckRule::L07 => Rule::L07,
            CheckRule::L08 => Rule::L08,
            CheckRule::L09 => Rule::L09,
            CheckRule::L11 => Rule::L11,
            CheckRule::L12 => Rule::L12,
            CheckRule::L13 => Rule::L13,
        }
    }
}
