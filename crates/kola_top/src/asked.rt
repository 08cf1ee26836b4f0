//! The query of a job, on its way from its text to its term, and the report of `translate`.

ghost use Rattle.std.specs.Prelude.{◌≡◌, IfOk, IfErr};
ghost use Rattle.kola_term.specs.TermView.{term_tree};
ghost use Rattle.kola_term.specs.Terms.{TermF};
ghost use Rattle.kola_text.specs.Spelling.{term_spelling};
ghost use Rattle.kola_canon.specs.Spelling.{type_spelling};
ghost use Rattle.kola_top.specs.Report.{translate_text};
ghost use Rattle.kola_translate.specs.Translation.{translation};
ghost use Rattle.oql_tree.specs.QueryViews.{query_tree};
ghost use Rattle.kola_top.specs.AskedViews.{IsAsked};
ghost use Rattle.kola_top.specs.Answer.{report_of_translate};
ghost use Rattle.kola_top.specs.Staged.{Nothing};
ghost use Rattle.kola_top.specs.StageLine.{at_query_text, at_query_type, at_size, FromQueryText, Reported};
ghost use Rattle.kola_top.specs.Refusals.{Passes, Refuses, Replies};

use crate::output::push_line;
use crate::refusal::Refusal;
use kola_canon::type_text;
use kola_core::Memory;
use kola_schema::Schema;
use kola_term::Term;
use kola_text::print_term;
use kola_translate::translate;
use oql_check::{Typed, check_query};
use oql_syntax::read_query;
use oql_tree::Query;
use std::alloc::Global;

/// A query with its type, and its term.
#[derive(Drop)]
pub struct Asked {
    typed: Box<Typed>,
    term: Box<Term>,
}

impl Asked {
    /// The query with its type.
    pub fn typed(&self) -> &Typed
        ensures { result.now ≡ self.now.typed.value }
    {
        &self.typed
    }

    /// The query's term.
    pub fn term(&self) -> &Term
        ensures { result.now ≡ self.now.term.value }
    {
        &self.term
    }

    /// The text of the query's term.
    pub fn term_text(&self, alloc: Global) -> Result<Vec<u8>, Memory>
        ensures { IfOk result (λ v. v.items ≡ term_spelling (term_tree self.now.term.value)) }
    {
        print_term(alloc, &self.term)
    }
}

/// The query that a text spells.
fn query_of(alloc: Global, text: &[u8]) -> Result<Box<Query>, Refusal>
    ensures { Passes (at_query_text text.now) (λ q. query_tree q.value) result }
{
    let query = read_query(alloc, text)?;
    let query = Box::new(alloc, query)?;
    Ok(query)
}

/// The query with its type.
fn typed_of(alloc: Global, schema: &Schema, query: Box<Query>) -> Result<Box<Typed>, Refusal>
    ensures answer { Passes (at_query_type schema.now (query_tree query.value)) (λ t. t.value.1) result }
    ensures query { IfOk result (λ t. t.value.0 ≡ query_tree query.value) }
{
    match check_query(alloc, schema, Box::into_inner(query)) {
        Ok(typed) => {
            let typed = Box::new(alloc, typed)?;
            Ok(typed)
        }
        Err((fault, _query)) => Err(Refusal::from(fault)),
    }
}

/// The term of a typed query.
fn term_of(alloc: Global, schema: &Schema, typed: &Typed) -> Result<Box<Term>, Refusal>
    ensures answer { Passes (at_size schema.now typed.now.0) (λ _. tt) result }
    ensures term { IfOk result (λ f. term_tree f.value ≡ TermF (translation schema.now typed.now.0)) }
{
    let term = Term::F(translate(alloc, schema, typed)?);
    let term = Box::new(alloc, term)?;
    Ok(term)
}

/// The query that a text spells, with its type and its term.
pub fn ask(alloc: Global, schema: &Schema, text: &[u8]) -> Result<Asked, Refusal>
    ensures found { IfOk result (λ a. IsAsked schema.now text.now a) }
    ensures refused { IfErr result (Refuses (FromQueryText text.now schema.now (λ _ _. Nothing))) }
{
    let query = query_of(alloc, text)?;
    let typed = typed_of(alloc, schema, query)?;
    let term = term_of(alloc, schema, &typed)?;
    Ok(Asked { typed, term })
}

/// The report on a query's term and its type.
fn translate_text(alloc: Global, asked: &Asked) -> Result<Vec<u8>, Memory>
    ensures { IfOk result (λ v. v.items
        ≡ translate_text (term_spelling (term_tree asked.now.term.value)) (type_spelling asked.now.typed.value.1)) }
{
    let term = asked.term_text(alloc)?;
    let ty = type_text(alloc, asked.typed.ty())?;
    let mut out = Vec::new(alloc);
    push_line(&mut out, b"query", &term)?;
    push_line(&mut out, b"type", &ty)?;
    Ok(out)
}

/// What `translate` reports on a query's text, or the first refusal behind the schema.
pub fn translate_report(alloc: Global, schema: &Schema, text: &[u8]) -> Result<Vec<u8>, Refusal>
    ensures { Replies (λ v. v.items) (FromQueryText text.now schema.now
        (λ q t. Reported (report_of_translate schema.now q t))) result }
{
    let asked = ask(alloc, schema, text)?;
    let bytes = translate_text(alloc, &asked)?;
    Ok(bytes)
}
