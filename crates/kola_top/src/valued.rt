//! What a query comes to in a database: the text of its value, and how many members its term visits.

ghost use Rattle.std.specs.Prelude.{◌≡◌, true, IfOk, IsPermutation};
ghost use Rattle.kola_values.specs.Values.{VUnit};
ghost use Rattle.kola_values.specs.Shapes.{Shaped};
ghost use Rattle.kola_values.specs.Views.{value_tree};
ghost use Rattle.kola_values.specs.Databases.{Objects};
ghost use Rattle.kola_database.specs.Stored.{IsUnder};
ghost use Rattle.kola_canon.specs.Encoding.{enc_type};
ghost use Rattle.kola_term.specs.Terms.{TermF};
ghost use Rattle.kola_term.specs.TermView.{fun_tree, term_tree};
ghost use Rattle.kola_term.specs.Meaning.{den};
ghost use Rattle.kola_term.specs.Visits.{visits};
ghost use Rattle.kola_top.specs.AskedViews.{IsReady};
ghost use Rattle.kola_top.specs.Refusals.{Passes};
ghost use Rattle.kola_top.specs.StageLine.{at_visits};
ghost use Rattle.kola_top.specs.Valued.{is_function, IsText, IsValued};

use crate::asked::Asked;
use crate::refusal::Refusal;
use kola_canon::{decode_by, value_text};
use kola_core::Memory;
use kola_database::Db;
use kola_eval::{Evaluated, eval, the_order_of_objects_does_not_matter};
use kola_schema::Schema;
use kola_term::{Fun, Term};
use kola_values::Value;
use oql_check::Typed;
use std::alloc::Global;

/// The most members that a query's term may visit.
const VISIT_LIMIT: u64 = 5_000_000;

/// The text of a query's value, and how many members the query's term visits.
#[derive(Drop)]
pub struct Valued {
    pub text: Vec<u8>,
    pub visits: u64,
}

/// The function that a term is.
fn function_of(term: &Term) -> &Fun
    requires { is_function (term_tree term.now) ≡ true }
    ensures { TermF (fun_tree result.now) ≡ term_tree term.now }
{
    match term {
        Term::F(f) => f,
        _ => unreachable!(),
    }
}

/// The value of a function at the unit, with the members that it visits.
fn at_unit(alloc: Global, schema: &Schema, db: &Db, f: &Fun) -> Result<Box<Evaluated>, Refusal>
    requires { IsUnder schema.now db.now }
    ensures stage { Passes (at_visits schema.now db.now.objects (fun_tree f.now)) (λ _. tt) result }
    ensures value { IfOk result (λ e. value_tree e.value.value ≡ den schema.now db.now.objects (fun_tree f.now) VUnit) }
    ensures visits { IfOk result (λ e. e.value.visits ≡ visits schema.now db.now.objects (fun_tree f.now) VUnit) }
{
    let evaluated = eval(alloc, schema, db, f, &Value::Unit, VISIT_LIMIT)?;
    let evaluated = Box::new(alloc, evaluated)?;
    Ok(evaluated)
}

/// The canonical text of the value of a query whose encoding is this value.
fn text_of(alloc: Global, typed: &Typed, value: &Value) -> Result<Vec<u8>, Memory>
    requires { Shaped (value_tree value.now) (enc_type typed.now.1) }
    ensures { IfOk result (λ text. IsText typed.now.1 (value_tree value.now) text.items) }
{
    let decoded = decode_by(alloc, value, typed.ty())?;
    value_text(alloc, &decoded, typed.ty())
}

/// What a query with its type and its term comes to in a database. The objects may be written in any order.
pub fn evaluated(alloc: Global, schema: &Schema, db: &Db, asked: &Asked) -> Result<Valued, Refusal>
    requires under { IsUnder schema.now db.now }
    requires asked { IsReady schema.now asked.now }
    ensures { (os : Objects) → IsPermutation os db.now.objects → IsValued schema.now os asked.now.typed.value.0 result }
{
    the_order_of_objects_does_not_matter();
    schema.well_formed();
    let value = at_unit(alloc, schema, db, function_of(asked.term()))?;
    let text = text_of(alloc, asked.typed(), &value.value)?;
    Ok(Valued {
        text,
        visits: value.visits,
    })
}
