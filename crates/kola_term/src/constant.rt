//! Constants of terms, and the sets that may stand as constants.

ghost use Rattle.std.specs.Prelude.{◌≡◌, ◌↔◌, IfOk, IfSome, IsSome, is_some, map};
ghost use Rattle.std.specs.Option.{option_map};
ghost use Rattle.kola_values.specs.Types.{TSet};
ghost use Rattle.kola_values.specs.Views.{type_tree, value_tree};
ghost use Rattle.kola_term.specs.Literals.{is_literal_of, each_literal, set_type, literal_type};
ghost use Rattle.kola_term.specs.TermView.{const_tree};

use kola_core::{Memory, Name, Text};
use kola_values::{Set, Ty, Value};
use std::marker::Model;

/// A constant of a term.
#[derive(Drop)]
pub enum Const {
    Int(i64),
    Bool(bool),
    Str(Text),
    /// A set of literals of one type.
    Literals(LitSet),
    /// The objects of the class whose extent has the name.
    Extent(Name),
    /// A constant variable of a rule.
    Meta(Name),
}

/// A set with a member, whose members are all integers, all truth values or all strings.
#[derive(Drop)]
pub struct LitSet {
    set: Set,
}

impl Model for LitSet {
    ghost use Rattle.std.specs.Prelude.{List};
    ghost use Rattle.std.specs.Coded.{coded_list};
    ghost use Rattle.kola_values.specs.Values.{ValueTree};
    ghost use Rattle.kola_values.specs.Models.Total.{value_code};

    ghost Value = { List ValueTree };

    ghost coded = { coded_list value_code };

    ghost view = { λ a. a.set };

    ghost use Rattle.std.specs.Prelude.{IsSome};
    ghost use Rattle.kola_term.specs.Literals.{set_type};

    ghost invariant = { λ a. IsSome (set_type a.set) };
}

/// Whether a value is a literal of the type.
fn is_literal_of(ty: &Ty, v: &Value) -> bool
    ensures { result ≡ is_literal_of (type_tree ty.now) (value_tree v.now) }
{
    match (ty, v) {
        (Ty::Int, Value::Int(n)) => {
            let _n = *n;
            true
        }
        (Ty::Bool, Value::Bool(_)) | (Ty::Str, Value::Str(_)) => true,
        _ => false,
    }
}

/// Whether each value is a literal of the type.
fn each_literal(ty: &Ty, members: &[Value]) -> bool
    ensures { result ≡ each_literal (type_tree ty.now) (map value_tree members.now) }
{
    for v in members {
        if !is_literal_of(ty, v) {
            return false;
        }
    }
    true
}

/// The type of a literal, or none where the value is no literal.
fn literal_type(v: &Value) -> Option<Ty>
    ensures { option_map type_tree result ≡ literal_type (value_tree v.now) }
{
    match v {
        Value::Int(_) => Some(Ty::Int),
        Value::Bool(_) => Some(Ty::Bool),
        Value::Str(_) => Some(Ty::Str),
        _ => None,
    }
}

/// Whether a set has a member, and its members are all integers, all truth values or all strings.
fn is_set_constant(set: &Set) -> bool
    ensures { result ≡ is_some (set_type set.now) }
{
    set.well_formed();
    let Some(first) = set.get(0) else {
        return false;
    };
    let Some(ty) = literal_type(first) else {
        return false;
    };
    each_literal(&ty, set.as_slice())
}

impl LitSet {
    /// The set as a constant; none exactly where the set has no member, or not all its members are integers, all truth
    /// values or all strings. It takes no memory.
    pub fn make(members: Set) -> Option<LitSet>
        ensures made { IfSome result (λ c. c ≡ members) }
        ensures exactly { IsSome result ↔ IsSome (set_type members) }
    {
        if is_set_constant(&members) {
            Some(LitSet { set: members })
        } else {
            None
        }
    }

    /// The set.
    pub fn set(&self) -> &Set
        ensures { result.now ≡ self.now }
    {
        &self.set
    }

    /// What every such set keeps: it is a set constant.
    pub fn well_formed(&self)
        ensures { IsSome (set_type self.now) }
    {
        let _set = &self.set;
    }

    /// The type of its members.
    pub(crate) fn member_type(&self) -> Option<Ty>
        ensures { option_map (λ t. TSet (type_tree t)) result ≡ set_type self.now }
    {
        self.well_formed();
        let first = self.set.get(0)?;
        literal_type(first)
    }

    /// A set equal to it.
    pub fn copy(&self) -> Result<LitSet, Memory>
        ensures { IfOk result (λ c. c ≡ self.now) }
    {
        let set = self.set.copy()?;
        Ok(LitSet { set })
    }
}

impl Const {
    /// A constant equal to it.
    pub fn copy(&self) -> Result<Const, Memory>
        ensures { IfOk result (λ c. const_tree c ≡ const_tree self.now) }
    {
        match self {
            Const::Int(n) => Ok(Const::Int(*n)),
            Const::Bool(b) => Ok(Const::Bool(*b)),
            Const::Str(text) => Ok(Const::Str(text.copy()?)),
            Const::Literals(set) => Ok(Const::Literals(set.copy()?)),
            Const::Extent(name) => Ok(Const::Extent(name.copy()?)),
            Const::Meta(name) => Ok(Const::Meta(name.copy()?)),
        }
    }
}
