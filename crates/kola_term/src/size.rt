//! The limit on the nodes of a type. Each count stops there.

ghost use Rattle.std.specs.Prelude.{◌≡◌, ◌+◌, nat_le};
ghost use Rattle.kola_values.specs.Types.{TSet, TPair, of_type_fields, type_nodes, types_nodes};
ghost use Rattle.kola_values.specs.Views.{type_tree};
ghost use Rattle.kola_term.specs.Faults.{small};
ghost use Rattle.kola_term.specs.TypingAnswers.{LeftOf};

use kola_values::{Fields, Ty};

/// The most nodes of a type in a term.
const TYPE_NODES: u32 = 4096;

/// What is left of a limit after the nodes of a type; `None` exactly where the type has more.
#[cycle(nodes_left)]
fn nodes_left(t: &Ty, limit: u32) -> Option<u32>
    ensures { LeftOf result limit (type_nodes (type_tree t.now)) }
{
    if limit == 0 {
        return None;
    }
    let rest = limit - 1;
    match t {
        Ty::Set(member) => nodes_left(member.get(), rest),
        Ty::Pair(first, second) => {
            let left = nodes_left(first.get(), rest)?;
            nodes_left(second.get(), left)
        }
        Ty::Struct(fields) => nodes_left_by(fields, rest),
        _ => Some(rest),
    }
}

/// The same of the types of fields.
#[cycle(nodes_left)]
fn nodes_left_by(fields: &Fields, limit: u32) -> Option<u32>
    ensures { LeftOf result limit (types_nodes (of_type_fields fields.now)) }
{
    let mut left = limit;
    for (_, t) in fields.as_slice() {
        left = nodes_left(t, left)?;
    }
    Some(left)
}

fn are_within(t: &Ty, u: &Ty, limit: u32) -> bool
    ensures { result ≡ nat_le (type_nodes (type_tree t.now) + type_nodes (type_tree u.now)) limit }
{
    match nodes_left(t, limit) {
        Some(left) => nodes_left(u, left).is_some(),
        None => false,
    }
}

/// Whether a type has at most 4,096 nodes.
#[tactic(auto, using(crate::proofs::Sizes::small_by_count))]
pub(crate) fn is_small(t: &Ty) -> bool
    ensures { result ≡ small (type_tree t.now) }
{
    nodes_left(t, TYPE_NODES).is_some()
}

/// Whether the type of the sets of a type has at most 4,096 nodes.
#[tactic(auto, using(crate::proofs::Sizes::small_set_by_count))]
pub(crate) fn is_small_set(t: &Ty) -> bool
    ensures { result ≡ small (TSet (type_tree t.now)) }
{
    nodes_left(t, TYPE_NODES - 1).is_some()
}

/// Whether the type of the pairs of two types has at most 4,096 nodes.
#[tactic(auto, using(crate::proofs::Sizes::small_pair_is))]
pub(crate) fn is_small_pair(t: &Ty, u: &Ty) -> bool
    ensures { result ≡ small (TPair (type_tree t.now) (type_tree u.now)) }
{
    are_within(t, u, TYPE_NODES - 1)
}

/// The same of the sets of pairs.
#[tactic(auto, using(crate::proofs::Sizes::small_set_of_pairs_is))]
pub(crate) fn is_small_set_of_pairs(t: &Ty, u: &Ty) -> bool
    ensures { result ≡ small (TSet (TPair (type_tree t.now) (type_tree u.now))) }
{
    are_within(t, u, TYPE_NODES - 2)
}

/// The same of the sets of pairs of a value with a set.
#[tactic(auto, using(crate::proofs::Sizes::small_nest_is))]
pub(crate) fn is_small_nest(t: &Ty, u: &Ty) -> bool
    ensures { result ≡ small (TSet (TPair (type_tree t.now) (TSet (type_tree u.now)))) }
{
    are_within(t, u, TYPE_NODES - 3)
}
