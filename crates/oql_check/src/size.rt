//! The limit on the nodes of a type.

ghost use Rattle.std.specs.Prelude.{◌≡◌, ◌+◌, ◌^◌, ◌-◌, min, map};
ghost use Rattle.kola_values.specs.Types.{TSet, TStruct, of_type_fields, types_nodes};
ghost use Rattle.kola_values.specs.Views.{type_tree, type_entry};
ghost use Rattle.oql_check.specs.Limits.{small};

use kola_values::{Fields, Ty};

/// The most nodes of a type in a query.
const TYPE_NODES: u64 = 4096;

/// Whether a type has at most 4,096 nodes.
#[tactic(auto, using(crate::proofs::Sizes::small_by_count))]
pub(crate) fn is_small(t: &Ty) -> bool
    ensures { result ≡ small (type_tree t.now) }
{
    t.nodes() <= TYPE_NODES
}

/// Whether the type of the sets of a type has.
#[tactic(auto, using(crate::proofs::Sizes::small_set_by_count))]
pub(crate) fn is_small_set(t: &Ty) -> bool
    ensures { result ≡ small (TSet (type_tree t.now)) }
{
    t.nodes() < TYPE_NODES
}

/// The nodes of the types of all fields; the greatest number of 64 bits stands for any greater one.
fn fields_nodes(fields: &Fields) -> u64
    ensures { result ≡ min (types_nodes (of_type_fields fields.now)) (2 ^ 64 - 1) }
{
    let mut all: u64 = 0;
    for (_, t) in fields.as_slice() {
        all = all.saturating_add(t.nodes());
    }
    all
}

/// Whether the struct of these fields has.
#[tactic(auto, using(crate::proofs::Sizes::small_struct_by_count))]
pub(crate) fn is_small_struct(fields: &Fields) -> bool
    ensures { result ≡ small (TStruct (of_type_fields fields.now)) }
{
    fields_nodes(fields) < TYPE_NODES
}
