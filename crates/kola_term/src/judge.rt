//! The outputs of nodes and the types of constants, with the limit on the size of types or without.

ghost use Rattle.std.specs.Prelude.{◌≡◌, [], IfOk, Some};
ghost use Rattle.std.specs.Option.{option_map};
ghost use Rattle.kola_values.specs.Types.{TBool, TSet, TPair};
ghost use Rattle.kola_values.specs.Views.{type_tree};
ghost use Rattle.kola_schema.specs.SchemaViews.{type_at};
ghost use Rattle.kola_term.specs.Terms.{CInt, CSet, CExtent};
ghost use Rattle.kola_term.specs.Typing.{attr_at, fun_of};
ghost use Rattle.kola_term.specs.Faults.{NotThisInput, lacks, attr_own, fun_own, pred_own};
ghost use Rattle.kola_term.specs.Judging.{under, and_then, kid, given, refused, leaf, no_size, set_out, consting};
ghost use Rattle.kola_term.specs.JudgeView.{sized_by, constant_by, declared_by};
ghost use Rattle.kola_term.specs.TermView.{const_tree};
ghost use Rattle.kola_term.specs.TypingAnswers.{why_tree, IsFault, IsTyping, IsCheck};

use crate::constant::{Const, LitSet};
use crate::meta::{MetaCtx, MetaTy, declared};
use crate::size::{is_small, is_small_nest, is_small_pair, is_small_set, is_small_set_of_pairs};
use crate::typing::{TypeFault, TypeWhy, refused};
use kola_core::Name;
use kola_schema::Schema;
use kola_values::Ty;
use std::alloc::Global;

/// What a term is typed by: the schema, the variables, and whether output types of more than 4,096 nodes are refused.
#[derive(Drop)]
pub(crate) struct Judge<'a> {
    pub alloc: Global,
    pub schema: &'a Schema,
    pub ctx: &'a MetaCtx,
    pub limited: bool,
}

fn int_type(n: i64) -> Result<Ty, TypeFault>
    ensures { IsTyping result (consting [] [] (CInt n)) }
{
    let _n = n;
    Ok(Ty::Int)
}

fn set_type(alloc: Global, set: &LitSet) -> Result<Ty, TypeFault>
    ensures { IsTyping result (consting [] [] (CSet set.now)) }
{
    match set.member_type() {
        Some(t) => Ok(Ty::set_of(alloc, t)?),
        None => Err(refused(alloc, TypeWhy::NotThisInput)),
    }
}

impl Judge<'_> {
    pub(crate) fn fault(&self, why: TypeWhy) -> TypeFault
        ensures { IsFault result (refused (why_tree why)) }
    {
        refused(self.alloc, why)
    }

    /// A copy of an output type, which is counted first.
    pub(crate) fn copied(&self, t: &Ty) -> Result<Ty, TypeFault>
        ensures { IsTyping result (sized_by self.now (type_tree t.now)) }
    {
        if self.limited && !is_small(t) {
            return Err(self.fault(TypeWhy::TypeTooLarge));
        }
        let copy = t.copy()?;
        Ok(copy)
    }

    /// The type of sets as an output.
    pub(crate) fn set(&self, t: Ty) -> Result<Ty, TypeFault>
        ensures { IsTyping result (sized_by self.now (TSet (type_tree t))) }
    {
        if self.limited && !is_small_set(&t) {
            return Err(self.fault(TypeWhy::TypeTooLarge));
        }
        let set = Ty::set_of(self.alloc, t)?;
        Ok(set)
    }

    /// The type of pairs as an output.
    pub(crate) fn pair(&self, t: Ty, u: Ty) -> Result<Ty, TypeFault>
        ensures { IsTyping result (sized_by self.now (TPair (type_tree t) (type_tree u))) }
    {
        if self.limited && !is_small_pair(&t, &u) {
            return Err(self.fault(TypeWhy::TypeTooLarge));
        }
        let pair = Ty::pair_of(self.alloc, t, u)?;
        Ok(pair)
    }

    /// The output of `nest`.
    pub(crate) fn nested(&self, t: Ty, u: Ty) -> Result<Ty, TypeFault>
        ensures { IsTyping result (sized_by self.now (TSet (TPair (type_tree t) (TSet (type_tree u))))) }
    {
        if self.limited && !is_small_nest(&t, &u) {
            return Err(self.fault(TypeWhy::TypeTooLarge));
        }
        let set = Ty::set_of(self.alloc, u)?;
        let pair = Ty::pair_of(self.alloc, t, set)?;
        let nest = Ty::set_of(self.alloc, pair)?;
        Ok(nest)
    }

    /// The output of `unnest`, whose second function must give a set.
    pub(crate) fn unnested(&self, t: Ty, u: Ty) -> Result<Ty, TypeFault>
        ensures { IsTyping result (set_out (type_tree u) (λ z. sized_by self.now (TSet (TPair (type_tree t) z)))) }
    {
        let Ty::Set(member) = u else {
            return Err(self.fault(TypeWhy::OutputsDiffer));
        };
        let member = member.into_inner();
        if self.limited && !is_small_set_of_pairs(&t, &member) {
            return Err(self.fault(TypeWhy::TypeTooLarge));
        }
        let pair = Ty::pair_of(self.alloc, t, member)?;
        let set = Ty::set_of(self.alloc, pair)?;
        Ok(set)
    }

    /// The output of a function that takes a part of its input.
    pub(crate) fn part(&self, part: Option<&Ty>) -> Result<Ty, TypeFault>
        ensures { IsTyping result (and_then (given (option_map type_at part.entry)) (sized_by self.now)) }
    {
        match part {
            Some(t) => self.copied(t),
            None => Err(self.fault(TypeWhy::NotThisInput)),
        }
    }

    /// The input type of a child, where there is one.
    pub(crate) fn input(&self, input: Option<Ty>) -> Result<Ty, TypeFault>
        ensures { IsTyping result (given (option_map type_tree input)) }
    {
        match input {
            Some(t) => Ok(t),
            None => Err(self.fault(TypeWhy::NotThisInput)),
        }
    }

    /// The answer of a predicate that wants a part of its input.
    pub(crate) fn wanted(&self, part: Option<&Ty>) -> Result<(), TypeFault>
        ensures { IsCheck result (no_size (lacks NotThisInput (option_map type_at part.entry)) (Some TBool)) }
    {
        match part {
            Some(_) => Ok(()),
            None => Err(self.fault(TypeWhy::NotThisInput)),
        }
    }

    pub(crate) fn attribute(&self, a: &Name, t: &Ty) -> Result<Ty, TypeFault>
        ensures { IsTyping result (leaf self.now.limited (attr_own self.now.schema.now a.now (type_tree t.now))
            (attr_at self.now.schema.now a.now (type_tree t.now))) }
    {
        let Ty::Class(class) = t else {
            return Err(self.fault(TypeWhy::NotThisInput));
        };
        match self.schema.attribute(class, a) {
            Some(u) => self.copied(u),
            None => Err(self.fault(TypeWhy::NoAttribute)),
        }
    }

    pub(crate) fn fun_variable(&self, name: &Name, t: &Ty) -> Result<Ty, TypeFault>
        ensures { IsTyping result (leaf self.now.limited (fun_own (declared_by self.now name.now) (type_tree t.now))
            (fun_of (declared_by self.now name.now) (type_tree t.now))) }
    {
        match declared(self.ctx, name) {
            Some(MetaTy::Fun(input, output)) => {
                if input.is(t) {
                    self.copied(output)
                } else {
                    Err(self.fault(TypeWhy::NotThisInput))
                }
            }
            _ => Err(self.fault(TypeWhy::WrongVariable)),
        }
    }

    pub(crate) fn pred_variable(&self, name: &Name, t: &Ty) -> Result<(), TypeFault>
        ensures { IsCheck result (no_size (pred_own (declared_by self.now name.now) (type_tree t.now)) (Some TBool)) }
    {
        match declared(self.ctx, name) {
            Some(MetaTy::Pred(input)) => {
                if input.is(t) {
                    Ok(())
                } else {
                    Err(self.fault(TypeWhy::NotThisInput))
                }
            }
            _ => Err(self.fault(TypeWhy::WrongVariable)),
        }
    }

    fn extent(&self, name: &Name) -> Result<Ty, TypeFault>
        ensures { IsTyping result (consting self.now.schema.now [] (CExtent name.now)) }
    {
        let Some(class) = self.schema.class_of(name) else {
            return Err(self.fault(TypeWhy::NoExtent));
        };
        let class = class.copy()?;
        let set = Ty::set_of(self.alloc, Ty::Class(class))?;
        Ok(set)
    }

    /// The type of a constant.
    pub(crate) fn constant(&self, c: &Const) -> Result<Ty, TypeFault>
        ensures { IsTyping result (constant_by self.now (const_tree c.now)) }
    {
        match c {
            Const::Int(n) => int_type(*n),
            Const::Bool(_) => Ok(Ty::Bool),
            Const::Str(_) => Ok(Ty::Str),
            Const::Literals(set) => set_type(self.alloc, set),
            Const::Extent(name) => self.extent(name),
            Const::Meta(name) => match declared(self.ctx, name) {
                Some(MetaTy::Const(t)) => Ok(t.copy()?),
                _ => Err(self.fault(TypeWhy::WrongVariable)),
            },
        }
    }

    /// The same of the child with the number.
    pub(crate) fn const_under(&self, child: u8, c: &Const) -> Result<Ty, TypeFault>
        ensures { IsTyping result (under child (constant_by self.now (const_tree c.now))) }
    {
        match self.constant(c) {
            Ok(u) => Ok(u),
            Err(TypeFault::At { path, why }) => {
                let path = path.prefixed(child)?;
                Err(TypeFault::At { path, why })
            }
            Err(TypeFault::Memory) => Err(TypeFault::Memory),
        }
    }

    /// The output of `K`. The type of a variable is counted before it is copied.
    pub(crate) fn constant_output(&self, c: &Const) -> Result<Ty, TypeFault>
        ensures { IsTyping result (kid 1 (constant_by self.now (const_tree c.now)) (sized_by self.now)) }
    {
        if let Const::Meta(name) = c {
            if let Some(MetaTy::Const(t)) = declared(self.ctx, name) {
                return self.copied(t);
            }
        }
        let u = self.const_under(1, c)?;
        if self.limited && !is_small(&u) {
            return Err(self.fault(TypeWhy::TypeTooLarge));
        }
        Ok(u)
    }
}
