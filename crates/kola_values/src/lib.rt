//! Types, values and sets, with the order of values.
#![tactic(auto)]

mod copies;
mod laws;
mod order;
mod set;
mod ty;
mod value;

pub use laws::{
    equal_types_are_the_same, members_make_one_rising_list, values_are_totally_ordered,
};
pub use order::cmp_values;
pub use ty::{BoxedTy, Fields, Ty};
pub use value::{BoxedValue, Set, Value, ValueFields};
