//! Types of a rule under a substitution that was found.

ghost use Rattle.std.specs.Prelude.{◌≡◌, IfOk};
ghost use Rattle.kola_values.specs.Types.{of_type_fields};
ghost use Rattle.kola_values.specs.Views.{type_tree};
ghost use Rattle.kola_match.specs.Substitutions.{sub_type, sub_types};
ghost use Rattle.kola_match.specs.Binds.{substitution_of};
ghost use Rattle.kola_match.specs.SubstViews.{found_binds};

use crate::subst::Subst;
use kola_core::Memory;
use kola_values::{BoxedTy, Fields, Ty};
use std::alloc::Global;

/// A type of a rule under a substitution that was found. A type variable of which the substitution knows nothing becomes
/// `unit`.
#[cycle(types)]
pub fn instantiate_type(alloc: Global, t: &Ty, s: &Subst) -> Result<Ty, Memory>
    ensures { IfOk result (λ r. type_tree r ≡ sub_type (substitution_of (found_binds s.now)).types (type_tree t.now)) }
{
    match t {
        Ty::Var(name) => match s.type_of(name) {
            Some(found) => found.copy(),
            None => Ok(Ty::Unit),
        },
        Ty::Set(member) => Ok(Ty::Set(boxed_type(alloc, member.get(), s)?)),
        Ty::Pair(first, second) => {
            let first = boxed_type(alloc, first.get(), s)?;
            let second = boxed_type(alloc, second.get(), s)?;
            Ok(Ty::Pair(first, second))
        }
        Ty::Struct(fields) => Ok(Ty::Struct(fields_under(alloc, fields, s)?)),
        Ty::Int | Ty::Str | Ty::Bool | Ty::Unit | Ty::Class(_) => t.copy(),
    }
}

/// The same in a box.
#[cycle(types)]
fn boxed_type(alloc: Global, t: &Ty, s: &Subst) -> Result<BoxedTy, Memory>
    ensures { IfOk result (λ b. b ≡ sub_type (substitution_of (found_binds s.now)).types (type_tree t.now)) }
{
    let made = instantiate_type(alloc, t, s)?;
    BoxedTy::new(alloc, made)
}

/// The same of the types of fields.
#[cycle(types)]
fn fields_under(alloc: Global, fields: &Fields, s: &Subst) -> Result<Fields, Memory>
    ensures { IfOk result (λ f. of_type_fields f
        ≡ sub_types (substitution_of (found_binds s.now)).types (of_type_fields fields.now)) }
{
    let mut made = Fields::new(alloc);
    for (label, t) in fields.as_slice() {
        let label = label.copy()?;
        let t = instantiate_type(alloc, t, s)?;
        made.push((label, t))?;
    }
    Ok(made)
}
