//! The names of members that are not known.
ghost use Rattle.std.specs.Prelude.{◌≡◌, ℕ, List, not, filter, IfOk};
ghost use Rattle.kola_core.specs.NameLists.{is_listed};
ghost use Rattle.kola_load.specs.JsonViews.{members_view};
ghost use Rattle.kola_load.specs.Json.{least, names_of_members};

use crate::members::Members;
use kola_core::{Memory, Text};
use std::alloc::Global;

/// What tells which names of members are known.
pub(crate) trait Knows {
    ghost names: { Self → List (List ℕ) };

    fn knows(&self, name: &str) -> bool
        ensures { result ≡ is_listed name.now (names self.now) };
}

// The least name of a member that is not known.
pub(crate) fn least_unknown<K: Knows>(
    alloc: Global,
    known: &K,
    members: &Members<'_>,
) -> Result<Option<Text>, Memory>
    ensures { IfOk result (λ o. o ≡ least
        (filter (λ n. not (is_listed n (K.names known.now))) (names_of_members (members_view members.now.entries)))) }
{
    for (name, _) in members {
        if !known.knows(name) {
            let text = Text::from_text(alloc, name)?;
            return Ok(Some(text));
        }
    }
    Ok(None)
}
