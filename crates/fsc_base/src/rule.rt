//! The rules that a text or a set of units can break.

ghost use Rattle.std.specs.Prelude.{◌≡◌};
ghost use Rattle.fsc_base.specs.Rule.{code_of};

/// A rule: K of the language, L a limit of this compiler, M of linking. Each is broken where its line says.
#[derive(Clone, Copy, Debug, PartialEq, Eq)]
pub enum Rule {
    /// No derivable token list begins with the tokens up to this one.
    K01,
    /// A declaration declares no declarator, tag or enumerator.
    K02,
    /// A name without linkage, tag body, member or enumerator is declared twice in one scope and name space.
    K03,
    /// Two declarations of one object or function in one scope are incompatible, or its linkage changes.
    K04,
    /// A declaration has two storage classes.
    K05,
    /// The type specifiers are none of C90's sets.
    K06,
    /// A member has incomplete or function type.
    K07,
    /// A bit-field's type or width is wrong.
    K08,
    /// An enumerator is no integral constant of int.
    K09,
    /// An array size is no integral constant above 0, or its element is incomplete or a function.
    K10,
    /// A function returns an array or function.
    K11,
    /// A parameter's storage class is not register, a list of names stands outside a definition, or void is
    /// wrongly in a parameter list.
    K12,
    /// A qualifier is given twice.
    K13,
    /// An initialiser has too many items, a wrong type, a target that takes none, or is not constant where static.
    K14,
    /// Auto or register stands at file scope.
    K15,
    /// A name with internal linkage is defined twice, or used and not defined.
    K16,
    /// A function definition has a wrong declarator, return type, storage class, parameter name or old-style
    /// declaration.
    K17,
    /// An object that needs a complete type has none at the end of its declarator, of its init-declarator or, for a
    /// definition with zeros, of its unit.
    K18,
    /// An undeclared name is used other than as the called name.
    K19,
    /// A subscript has no pointer to a complete object with an integer.
    K20,
    /// A call's function, argument count or argument types are wrong.
    K21,
    /// `.` or `->` has no complete struct or union or no such member.
    K22,
    /// `++` or `--` has no modifiable lvalue, or one that is neither an integer nor a pointer to a complete object
    /// type.
    K23,
    /// `&` has no lvalue or function, or one that is register or a bit-field.
    K24,
    /// `*` has no pointer.
    K25,
    /// Unary `+ - ~ !` has a wrong operand.
    K26,
    /// `sizeof` has a function, incomplete type or bit-field.
    K27,
    /// A cast is from or to a type that is not scalar, except to void.
    K28,
    /// A binary operator has wrong operands.
    K29,
    /// `?:` has wrong operands.
    K30,
    /// A quote is not closed on its line, in a group that is read and outside `#error`, `#pragma` and ignored
    /// tokens.
    K31,
    /// A comment is not closed.
    K32,
    /// An unknown directive stands in a group that is read.
    K33,
    /// `#elif`, `#else` or `#endif` is unmatched, missing or out of order.
    K34,
    /// An `#if` or `#elif` line is no integral constant expression, `defined` came from a macro, or `#ifdef` or
    /// `#ifndef` has no name after it.
    K35,
    /// A macro is defined again differently.
    K36,
    /// A `#define` or `#undef` line is malformed, or names `defined` or a predefined macro.
    K37,
    /// A macro call has a wrong number of arguments or no end.
    K38,
    /// A `#line` line, after expansion, is not a decimal number from 1 to 2147483647 with an optional string after
    /// it.
    K39,
    /// An included file is absent.
    K40,
    /// An `#include` line has none of the three forms.
    K41,
    /// `##` gives no preprocessing token.
    K42,
    /// `#error`.
    K43,
    /// A preprocessing token is no token.
    K44,
    /// An octal or hexadecimal escape is above 255, or `\x` has no digit.
    K45,
    /// An assignment, initialiser, argument or return value does not fit its target, or its left side is not
    /// modifiable.
    K46,
    /// A constant expression is none.
    K47,
    /// Two cases are equal, two defaults, or two labels of one name.
    K48,
    /// A controlling expression is not scalar (switch: not integral).
    K49,
    /// Case, default, break, continue or goto has nothing to belong to.
    K50,
    /// `return` has a value in a void function.
    K51,
    /// A member, parameter or local is of a function type where C90 forbids it.
    K52,
    /// A void expression is used for its value.
    K53,
    /// A floating type or constant.
    L01,
    /// Includes nested deeper than 64.
    L02,
    /// A syntax tree deeper than 256.
    L03,
    /// An integer literal above 2^32 - 1, or a string above 65,535 bytes.
    L04,
    /// A type larger than 2^27 bytes.
    L05,
    /// A wide literal or a character constant of several characters.
    L06,
    /// A bit-field.
    L07,
    /// More than 250 parameters, automatic names and struct calls of a function, or more than 63 parameters or
    /// arguments.
    L08,
    /// A pending size above 200.
    L09,
    /// More than 2^20 tokens after expansion, line ends and End not counted.
    L10,
    /// A struct as an argument in the variable part of a prototyped call.
    L11,
    /// A name that begins with `__fsc_` is declared, or used other than called as a primitive.
    L12,
    /// More than 511 cases in a switch.
    L13,
    /// A source file above 2^24 bytes.
    L14,
    /// `__DATE__` or `__TIME__`.
    L15,
    /// A unit's bulk is above 2^28.
    L16,
    /// Two declarations with external linkage that are compared have incompatible types.
    M01,
    /// A name with external linkage has two definitions.
    M02,
    /// A used name has no definition; for an internal one only the definition of its own symbol counts.
    M03,
    /// No function `main` with external linkage is defined.
    M04,
    /// The program has more than 2^18 nodes, or its units have more than 2^16 struct and union types together.
    M05,
    /// The static blocks do not fit.
    M06,
}

impl Rule {
    /// The rule's name as note lines print it, three ASCII characters.
    pub fn code(self) -> [u8; 3]
        ensures { result ≡ code_of self }
    {
        match self {
            Rule::K01 => *b"K01",
            Rule::K02 => *b"K02",
            Rule::K03 => *b"K03",
            Rule::K04 => *b"K04",
            Rule::K05 => *b"K05",
            Rule::K06 => *b"K06",
            Rule::K07 => *b"K07",
            Rule::K08 => *b"K08",
            Rule::K09 => *b"K09",
            Rule::K10 => *b"K10",
            Rule::K11 => *b"K11",
            Rule::K12 => *b"K12",
            Rule::K13 => *b"K13",
            Rule::K14 => *b"K14",
            Rule::K15 => *b"K15",
            Rule::K16 => *b"K16",
            Rule::K17 => *b"K17",
            Rule::K18 => *b"K18",
            Rule::K19 => *b"K19",
            Rule::K20 => *b"K20",
            Rule::K21 => *b"K21",
            Rule::K22 => *b"K22",
            Rule::K23 => *b"K23",
            Rule::K24 => *b"K24",
            Rule::K25 => *b"K25",
            Rule::K26 => *b"K26",
            Rule::K27 => *b"K27",
            Rule::K28 => *b"K28",
            Rule::K29 => *b"K29",
            Rule::K30 => *b"K30",
            Rule::K31 => *b"K31",
            Rule::K32 => *b"K32",
            Rule::K33 => *b"K33",
            Rule::K34 => *b"K34",
            Rule::K35 => *b"K35",
            Rule::K36 => *b"K36",
            Rule::K37 => *b"K37",
            Rule::K38 => *b"K38",
            Rule::K39 => *b"K39",
            Rule::K40 => *b"K40",
            Rule::K41 => *b"K41",
            Rule::K42 => *b"K42",
            Rule::K43 => *b"K43",
            Rule::K44 => *b"K44",
            Rule::K45 => *b"K45",
            Rule::K46 => *b"K46",
            Rule::K47 => *b"K47",
            Rule::K48 => *b"K48",
            Rule::K49 => *b"K49",
            Rule::K50 => *b"K50",
            Rule::K51 => *b"K51",
            Rule::K52 => *b"K52",
            Rule::K53 => *b"K53",
            Rule::L01 => *b"L01",
            Rule::L02 => *b"L02",
            Rule::L03 => *b"L03",
            Rule::L04 => *b"L04",
            Rule::L05 => *b"L05",
            Rule::L06 => *b"L06",
            Rule::L07 => *b"L07",
            Rule::L08 => *b"L08",
            Rule::L09 => *b"L09",
            Rule::L10 => *b"L10",
            Rule::L11 => *b"L11",
            Rule::L12 => *b"L12",
            Rule::L13 => *b"L13",
            Rule::L14 => *b"L14",
            Rule::L15 => *b"L15",
            Rule::L16 => *b"L16",
            Rule::M01 => *b"M01",
            Rule::M02 => *b"M02",
            Rule::M03 => *b"M03",
            Rule::M04 => *b"M04",
            Rule::M05 => *b"M05",
            Rule::M06 => *b"M06",
        }
    }
}
