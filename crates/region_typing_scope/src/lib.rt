// What the names of a source stand for while its types are checked, the types and bounds that are written in it, and values with
// their types.
#![tactic(auto)]

pub mod bounds;
pub mod context;
pub mod conversions;
pub mod declared;
pub mod entailment;
mod filling;
pub mod flows;
pub mod initial_cells;
mod locals;
pub mod lookups;
mod names;
pub mod number_table;
pub mod operands;
pub mod place;
pub mod point;
pub mod refusals;
pub mod right_operands;
pub mod scope;
pub mod sides;
pub mod signature;
pub mod strings;
mod sums;
pub mod text_blocks;
pub mod typed;
pub mod types;
pub mod visible;
