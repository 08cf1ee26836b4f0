//! What a database and a term lend: constants and attributes.
ghost use Rattle.std.specs.Prelude.{◌≡◌};
ghost use Rattle.kola_values.specs.Sets.{set_of};
ghost use Rattle.kola_values.specs.Databases.{extent_class, attribute_of};
ghost use Rattle.kola_term.specs.TermView.{const_tree};
ghost use Rattle.kola_term.specs.Meaning.{extent_objects};
ghost use Rattle.kola_eval.specs.Lending.{lent_tree};
ghost use Rattle.kola_eval.specs.Evaluating.{constant_in};

use crate::lent::Lent;
use crate::run::Run;
use kola_core::Name;
use kola_term::{Const, LitSet};
use kola_values::Value;

impl<'a> Run<'a> {
    // The extent of the name; empty where there is none.
    fn extent(&self, name: &Name) -> Lent<'a>
        ensures { lent_tree result
            ≡ set_of (extent_objects (extent_class self.now.schema.now name.now) self.now.db.now.objects) }
    {
        match self.db.extent(name) {
            Some(set) => Lent::Set(set),
            None => Lent::Empty,
        }
    }

    // A constant's value.
    pub(crate) fn constant(&self, c: &'a Const) -> Lent<'a>
        ensures { lent_tree result ≡ constant_in self.now (const_tree c.now) }
    {
        match c {
            Const::Int(n) => Lent::Int(*n),
            Const::Bool(b) => Lent::Bool(*b),
            Const::Str(text) => Lent::Str(text),
            Const::Literals(set) => literals(set),
            Const::Extent(name) => self.extent(name),
            Const::Meta(_) => Lent::Unit,
        }
    }

    // The attribute of an object.
    pub(crate) fn attribute(&self, v: Lent<'_>, a: &Name) -> Lent<'a>
        ensures { lent_tree result ≡ attribute_of a.now self.now.db.now.objects (lent_tree v.entry) }
    {
        let Lent::Whole(whole) = v else {
            return Lent::Unit;
        };
        let Value::Obj(class, id) = whole else {
            return Lent::Unit;
        };
        match self.db.attribute(class, *id, a) {
            Some(value) => Lent::Whole(value),
            None => Lent::Unit,
        }
    }
}

// A set constant.
fn literals<'a>(set: &'a LitSet) -> Lent<'a>
    ensures { lent_tree result ≡ set_of set.now }
{
    let set = set.set();
    set.well_formed();
    Lent::Set(set)
}
