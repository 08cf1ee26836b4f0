//! Instances of rules: substitutions, when a rule holds, and how instances are found.
#![tactic(auto)]

mod declared;
mod demand;
mod facts;
mod find;
mod found;
mod given;
mod instance;
mod matched;
mod matching;
mod nodes;
mod pairs;
mod subst;
mod types;
mod well_typed;

pub use facts::{
    instances_of_one_term_agree, places_go_with_substitutions, typed_substitutions_keep_types,
    variables_decide_instances,
};
pub use instance::{Tally, binds_all_variables, match_at, match_both};
pub use nodes::same_node;
pub use pairs::same_part;
pub use subst::{Subst, instantiate};
pub use types::instantiate_type;
pub use well_typed::{rule_ok, sides_fit};
