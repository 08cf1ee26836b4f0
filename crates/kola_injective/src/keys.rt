//! Functions that are keys: the attributes of a key, paired to the right.

ghost use Rattle.std.specs.Prelude.{◌≡◌};
ghost use Rattle.std.specs.List.{list_any};
ghost use Rattle.kola_values.specs.Views.{type_tree};
ghost use Rattle.kola_term.specs.TermView.{fun_tree};
ghost use Rattle.kola_injective.specs.Inferring.{is_attribute, pairs_up, is_key};

use kola_core::{Name, Names};
use kola_schema::Schema;
use kola_term::Fun;
use kola_values::Ty;

/// Whether the function is the attribute of the name.
fn is_attribute(f: &Fun, name: &Name) -> bool
    ensures { result ≡ is_attribute (fun_tree f.now) name.now }
{
    match f {
        Fun::Attr(a) => a.is(name),
        _ => false,
    }
}

/// Whether the function is these attributes, paired to the right.
fn pairs_up(f: &Fun, key: &[Name]) -> bool
    ensures { result ≡ pairs_up (fun_tree f.now) key.now }
{
    let Some((first, rest)) = key.split_first() else {
        return false;
    };
    match f {
        Fun::Pair(f, g) => is_attribute(f, first) && pairs_up(g, rest),
        _ => is_attribute(f, first) && rest.is_empty(),
    }
}

/// Whether the function is one of these keys.
fn is_one_of(f: &Fun, keys: &[Names]) -> bool
    ensures { result ≡ list_any (λ key. pairs_up (fun_tree f.now) key) keys.now }
{
    keys.iter().any(|key| pairs_up(f, key.as_slice()))
}

/// Whether the type is a class, and the function a key of it.
pub(crate) fn is_key(schema: &Schema, f: &Fun, t: &Ty) -> bool
    ensures { result ≡ is_key schema.now (fun_tree f.now) (type_tree t.now) }
{
    let Ty::Class(name) = t else {
        return false;
    };
    match schema.class_named(name) {
        Some(class) => is_one_of(f, class.keys.as_slice()),
        None => false,
    }
}
