//! The untyped tree of a unit: what the grammar of C90 makes of its tokens, one variant for each production, each with the
//! place of its first token. What holds of a tree beyond the grammar is the checker's.
//!
//! **Nodes and depth.** A node is a unit, a function, a function's body, a declaration, a specifier, a declaration of members, an
//! enumerator, a part of a declarator, a parameter, a type name, a statement and an expression; a declarator with `=`, a member
//! with `:`, and an initialiser in braces. Nothing else is: no declarator, no list, no initialiser that is one expression. The
//! depth of a tree is the most nodes on a way down from its root. Of the n parts of a declarator the k-th, counted from the
//! outermost, has k - 1 parts above it. So chains that group to the left count, as `a+b+c` and suffixes do, and so do `else if`
//! and labels in a row; the items of a list don't: operands of commas, arguments, items of an initialiser, declarators of one
//! declaration, statements of one block, the stars of one declarator. A tree has a depth of at most 256, so that whatever walks
//! it, dropping it included, may be a recursion. `specs/Depth` says so as a definition.
#![tactic(auto)]

mod declaration;
mod declared_name;
mod expression;
mod laws;
mod operator;
mod statement;
mod unit;

pub use declaration::{Declaration, InitDeclarator, Initializer, InitializerForm};
pub use expression::{
    Declarator, Enumerator, Expr, ExprForm, Field, FieldDeclarator, ListedName, Parameter, Part,
    PartForm, Pointer, Specifier, SpecifierForm, TypeName,
};
pub use laws::depth_is_counted;
pub use operator::{Binary, Qualifier, RecordKind, Step, Storage, TypeKeyword, Unary};
pub use statement::{Compound, Statement, StatementForm};
pub use unit::{External, Function, Tree};
