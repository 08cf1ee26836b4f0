//! What has been found for the variables of a rule while a term is matched.

ghost use Rattle.std.specs.Prelude.{◌≡◌, ◌++◌, ◌∷◌, [], map, IfOk, OnErr};
ghost use Rattle.std.specs.Option.{option_map};
ghost use Rattle.kola_values.specs.Databases.{look_up};
ghost use Rattle.kola_values.specs.Views.{type_tree};
ghost use Rattle.kola_schema.specs.SchemaViews.{type_at};
ghost use Rattle.kola_term.specs.Parts.{sub_tree};
ghost use Rattle.kola_match.specs.Substitutions.{inst, sub_type};
ghost use Rattle.kola_match.specs.Finding.{Finds};
ghost use Rattle.kola_match.specs.Alike.{first_like, variable_like};
ghost use Rattle.kola_match.specs.NodeViews.{part_entry, fun_at, pred_at, const_at};
ghost use Rattle.kola_match.specs.FoundViews.{binds_of};

use crate::nodes::same_kind;
use crate::pairs::same_part;
use kola_core::{Memory, Name};
use kola_term::{Const, Fun, Pred, SubTerm};
use kola_values::Ty;
use std::alloc::Global;

/// Types for type variables and parts of a term for variables, the newest last. The parts are lent by the term.
#[derive(Drop)]
pub(crate) struct Found<'t> {
    pub(crate) types: Vec<(Name, Ty)>,
    pub(crate) parts: Vec<(Name, SubTerm<'t>)>,
}

impl<'t> Found<'t> {
    /// Nothing.
    pub(crate) fn nothing(alloc: Global) -> Found<'t>
        ensures { (result.types.items ≡ []) × (result.parts.items ≡ []) }
    {
        Found {
            types: Vec::new(alloc),
            parts: Vec::new(alloc),
        }
    }

    /// The part that was found for the variable of the name and of the kind of `like`.
    pub(crate) fn part_of(&self, name: &Name, like: SubTerm) -> Option<SubTerm<'t>>
        ensures { option_map sub_tree result
            ≡ first_like (sub_tree like.entry) name.now (map part_entry self.now.parts.items) }
    {
        for (known, part) in &self.parts {
            if name.is(known) && same_kind(like, *part) {
                return Some(*part);
            }
        }
        None
    }

    /// The function that was found for the function variable.
    pub(crate) fn fun_of(&self, name: &Name) -> Option<&'t Fun>
        ensures { option_map fun_at result ≡ look_up name.now (binds_of self.now).funs }
    {
        for (known, part) in &self.parts {
            if let SubTerm::F(f) = *part {
                if name.is(known) {
                    return Some(f);
                }
            }
        }
        None
    }

    /// The predicate that was found for the predicate variable.
    pub(crate) fn pred_of(&self, name: &Name) -> Option<&'t Pred>
        ensures { option_map pred_at result ≡ look_up name.now (binds_of self.now).preds }
    {
        for (known, part) in &self.parts {
            if let SubTerm::P(p) = *part {
                if name.is(known) {
                    return Some(p);
                }
            }
        }
        None
    }

    /// The constant that was found for the constant variable.
    pub(crate) fn const_of(&self, name: &Name) -> Option<&'t Const>
        ensures { option_map const_at result ≡ look_up name.now (binds_of self.now).consts }
    {
        for (known, part) in &self.parts {
            if let SubTerm::C(c) = *part {
                if name.is(known) {
                    return Some(c);
                }
            }
        }
        None
    }

    /// The type that was found for the type variable.
    pub(crate) fn type_of(&self, name: &Name) -> Option<&Ty>
        ensures { option_map type_at result ≡ look_up name.now (binds_of self.now).types }
    {
        for (known, t) in &self.types {
            if name.is(known) {
                return Some(t);
            }
        }
        None
    }

    /// Takes the part for the variable of the name and of the part's kind, where nothing else was found for it.
    pub(crate) fn take_part(&mut self, name: &Name, part: SubTerm<'t>) -> Result<bool, Memory>
        ensures { IfOk result (λ b. Finds b (binds_of self.old) (binds_of self.new)
            (λ s. inst s (variable_like (sub_tree part.entry) name.now) ≡ sub_tree part.entry)) }
    {
        if let Some(known) = self.part_of(name, part) {
            return Ok(same_part(known, part));
        }
        self.parts.push((name.copy()?, part))?;
        Ok(true)
    }

    /// Takes the type for the type variable, where no other was found for it.
    pub(crate) fn take_type(&mut self, name: &Name, t: &Ty) -> Result<bool, Memory>
        ensures { IfOk result (λ b. Finds b (binds_of self.old) (binds_of self.new)
            (λ s. s.types name.now ≡ type_tree t.now)) }
    {
        if let Some(known) = self.type_of(name) {
            return Ok(known.is(t));
        }
        let name = name.copy()?;
        let t = t.copy()?;
        self.types.push((name, t))?;
        Ok(true)
    }
}
