//! Terms and types against the patterns of rules. What is found is exactly what a substitution needs.

ghost use Rattle.std.specs.Prelude.{◌≡◌, IfOk, false, map};
ghost use Rattle.kola_values.specs.Views.{type_tree, type_entry};
ghost use Rattle.kola_term.specs.Parts.{sub_tree};
ghost use Rattle.kola_match.specs.Substitutions.{Substitution, inst, sub_type};
ghost use Rattle.kola_match.specs.Finding.{Finds, FieldsGive};
ghost use Rattle.kola_match.specs.FoundViews.{binds_of};

use crate::found::Found;
use crate::nodes::{same_kind, same_node, variable_name};
use crate::pairs::{Pairs, alike};
use kola_core::{Memory, Name};
use kola_term::SubTerm;
use kola_values::Ty;

/// Whether the part may be an instance of the pattern: whether each node of the pattern that is no variable has the
/// same node beside it. It takes no memory.
pub(crate) fn may_match(pattern: SubTerm, part: SubTerm) -> bool
    ensures { result ≡ false → (s : Substitution) → inst s (sub_tree pattern.entry) ≡ sub_tree part.entry → ⊥ }
{
    if let Some(_) = variable_name(pattern) {
        return true;
    }
    match alike(pattern, part) {
        None => false,
        Some(Pairs::Leaf) => true,
        Some(Pairs::One(a, b)) => may_match(a, b),
        Some(Pairs::Two(a, b, c, d)) => may_match(a, b) && may_match(c, d),
        Some(Pairs::Three(a, b, c, d, e, f)) => {
            if !may_match(a, b) {
                return false;
            }
            may_match(c, d) && may_match(e, f)
        }
    }
}

/// Takes the parts of the term for the variables of the pattern.
pub(crate) fn match_part<'t>(
    pattern: SubTerm,
    part: SubTerm<'t>,
    found: &mut Found<'t>,
) -> Result<bool, Memory>
    ensures { IfOk result (λ b. Finds b (binds_of found.old) (binds_of found.new)
        (λ s. inst s (sub_tree pattern.entry) ≡ sub_tree part.entry)) }
{
    if let Some(name) = variable_name(pattern) {
        if !same_kind(pattern, part) {
            return Ok(false);
        }
        return found.take_part(name, part);
    }
    match alike(pattern, part) {
        None => Ok(false),
        Some(Pairs::Leaf) => Ok(true),
        Some(Pairs::One(a, b)) => match_part(a, b, found),
        Some(Pairs::Two(a, b, c, d)) => {
            if !match_part(a, b, found)? {
                return Ok(false);
            }
            match_part(c, d, found)
        }
        Some(Pairs::Three(a, b, c, d, e, f)) => {
            if !match_part(a, b, found)? {
                return Ok(false);
            }
            if !match_part(c, d, found)? {
                return Ok(false);
            }
            match_part(e, f, found)
        }
    }
}

/// Takes types for the type variables of the pattern.
#[cycle(match_type)]
pub(crate) fn match_type(pattern: &Ty, t: &Ty, found: &mut Found) -> Result<bool, Memory>
    ensures { IfOk result (λ b. Finds b (binds_of found.old) (binds_of found.new)
        (λ s. sub_type s.types (type_tree pattern.now) ≡ type_tree t.now)) }
{
    match (pattern, t) {
        (Ty::Var(name), _) => found.take_type(name, t),
        (Ty::Int, Ty::Int) | (Ty::Str, Ty::Str) | (Ty::Bool, Ty::Bool) | (Ty::Unit, Ty::Unit) => {
            Ok(true)
        }
        (Ty::Class(a), Ty::Class(b)) => Ok(a.is(b)),
        (Ty::Set(a), Ty::Set(b)) => match_type(a.get(), b.get(), found),
        (Ty::Pair(a, c), Ty::Pair(b, d)) => {
            if !match_type(a.get(), b.get(), found)? {
                return Ok(false);
            }
            match_type(c.get(), d.get(), found)
        }
        (Ty::Struct(fs), Ty::Struct(gs)) => match_fields(fs.as_slice(), gs.as_slice(), found),
        _ => Ok(false),
    }
}

/// The same for the fields of two structs, in their order.
#[cycle(match_type)]
fn match_fields(fs: &[(Name, Ty)], gs: &[(Name, Ty)], found: &mut Found) -> Result<bool, Memory>
    ensures { IfOk result (λ b. Finds b (binds_of found.old) (binds_of found.new)
        (λ s. FieldsGive s (map type_entry fs.now) (map type_entry gs.now))) }
{
    if fs.len() != gs.len() {
        return Ok(false);
    }
    for i in 0..fs.len() {
        let ((label, a), (other, b)) = (&fs[i], &gs[i]);
        if !label.is(other) {
            return Ok(false);
        }
        if !match_type(a, b, found)? {
            return Ok(false);
        }
    }
    Ok(true)
}
