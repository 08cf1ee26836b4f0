//! The value and the visits of a term.
ghost use Rattle.std.specs.Prelude.{◌≡◌, IfOk, IfErr};
ghost use Rattle.kola_values.specs.Views.{value_tree};
ghost use Rattle.kola_database.specs.Stored.{IsUnder};
ghost use Rattle.kola_term.specs.Meaning.{den};
ghost use Rattle.kola_term.specs.Visits.{visits};
ghost use Rattle.kola_term.specs.TermView.{fun_tree};
ghost use Rattle.kola_eval.specs.Evaluations.{IsWithin};
ghost use Rattle.kola_eval.specs.declared.fault.EvalFault.TheVariants as fault;

use crate::budget::Stop;
use crate::fault::EvalFault;
use crate::lent::Lent;
use crate::run::Run;
use crate::terms::boxed_at;
use kola_database::Db;
use kola_schema::Schema;
use kola_term::Fun;
use kola_values::{BoxedValue, Value};
use std::alloc::Global;

/// The value of a term, and how many members it visited.
#[derive(Drop)]
pub struct Evaluated {
    /// The value.
    pub value: Value,
    /// The number of members that were visited.
    pub visits: u64,
}

// A value with its visits.
fn finished(value: BoxedValue, visits: u64) -> Result<Evaluated, EvalFault>
    ensures value { IfOk result (λ e. value_tree e.value ≡ value) }
    ensures visits { IfOk result (λ e. e.visits ≡ visits) }
    ensures fault { IfErr result (λ f. f ≡ fault.Memory) }
{
    let value = value.get().copy()?;
    Ok(Evaluated { value, visits })
}

/// The value of a function at a value, with the members that are visited, of which there may be `limit`. `VisitLimit` comes
/// exactly where the visits are more, as soon as they are. It asks for no type: where the value is not of the function's input
/// type, or where a variable stands in it, the value is the one that the definitions give.
pub fn eval(
    alloc: Global,
    schema: &Schema,
    db: &Db,
    f: &Fun,
    v: &Value,
    limit: u64,
) -> Result<Evaluated, EvalFault>
    requires { IsUnder schema.now db.now }
    ensures value { IfOk result
        (λ e. value_tree e.value ≡ den schema.now db.now.objects (fun_tree f.now) (value_tree v.now)) }
    ensures visits { IfOk result
        (λ e. e.visits ≡ visits schema.now db.now.objects (fun_tree f.now) (value_tree v.now)) }
    ensures limit { IsWithin limit (visits schema.now db.now.objects (fun_tree f.now) (value_tree v.now)) result }
{
    let run = Run::over(alloc, schema, db);
    let mut left = limit;
    match boxed_at(run, f, Lent::Whole(v), &mut left) {
        Ok(value) => finished(value, limit - left),
        Err(Stop::Limit) => Err(EvalFault::VisitLimit { limit }),
        Err(Stop::Memory) => Err(EvalFault::Memory),
    }
}
