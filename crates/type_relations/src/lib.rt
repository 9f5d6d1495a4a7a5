//! How types relate: qualified versions, compatible and composite types, of one unit and of two (C90 6.1.2.5, 6.1.2.6, 6.5.3, 6.5.4.3),
//! their texts and copies. No call recurses by the depth of a type.
#![tactic(auto)]

mod bounds;
mod comparing;
mod composing;
mod copying;
mod members;
mod nodes;
mod qualifying;
mod texts;

pub use comparing::{compatible, compatible_in};
pub use composing::composite;
pub use copying::{copied_node, copied_nodes, copied_slice};
pub use nodes::is_kept;
pub use qualifying::{element, qualified, qualifiers, unqualified};
pub use texts::type_text;
