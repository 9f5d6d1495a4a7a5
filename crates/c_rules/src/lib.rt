//! The rules of operands (C90 6.3). For each rule a classifier, a function on a small view of the operands that answers an enum, and
//! beside it what builds the typed tree where the rule is kept, and refuses the operands where it is not.
#![tactic(auto)]

mod adding;
mod assigning;
mod choosing;
mod comparing;
mod computing;
mod fitting;
mod operand;
mod operating;
mod operator;
mod reaching;
mod single;

pub use adding::{Difference, Sum, difference_of, sum_of};
pub use assigning::{Combining, assignment, combining_of, compound_assignment, increment, step_of};
pub use choosing::{Choice, choice_of, conditional};
pub use comparing::{Comparison, equality_of, relation_of};
pub use fitting::{Fit, fit_of, fits, fitted};
pub use operand::{Operand, Pair, Target, fitting_of, operand_of, pair_of, target_of};
pub use operating::operation;
pub use operator::{Group, Signs, group_of};
pub use reaching::{
    Found, address, element_of, has_address, indirection, member, member_of, pointer_member,
    subscript,
};
pub use single::{
    Casting, cast_to, casting_of, integer_unary, negation, size_of_expression, size_of_type,
};
