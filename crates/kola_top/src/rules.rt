//! The rules of a job: read from their text, accepted by their proofs, and told in a report.

ghost use Rattle.std.specs.Prelude.{◌≡◌, ◌++◌, length, map, IfOk, IfErr, OnOk};
ghost use Rattle.std.specs.List.{flat_map};
ghost use Rattle.kola_rule.specs.Rules.{DraftTree};
ghost use Rattle.kola_rule.specs.RuleViews.{rule_tree, draft_tree};
ghost use Rattle.kola_laws.specs.Laws.{laws};
ghost use Rattle.kola_top.specs.Refusals.{Passes};
ghost use Rattle.kola_top.specs.StageLine.{at_rules_text, at_rules};
ghost use Rattle.kola_top.specs.Report.{accepted_line, check_text};
ghost use Rattle.kola_top.specs.RulesViews.{names_behind, book_schema, book_names};
ghost use Rattle.kola_top.specs.declared.refusal.Refusal.TheVariants as refusal;

use crate::output::push_count;
use crate::refusal::Refusal;
use coko_text::read_rules;
use kola_canon::push_bytes;
use kola_core::{Memory, Name};
use kola_proof::Accepted;
use kola_rule::{Drafts, RuleTable};
use kola_schema::Schema;
use std::alloc::Global;

/// The rules of a job under its schema. Where there are none, the laws are not made.
#[derive(Drop)]
pub enum Rulebook {
    /// No rules.
    Empty(Box<Schema>),
    /// The laws, which are so many, and behind them the rules.
    Rules(Box<Accepted>, usize),
}

impl Rulebook {
    /// The schema.
    pub fn schema(&self) -> &Schema
        ensures { result.now ≡ book_schema self.now }
    {
        match self {
            Rulebook::Empty(schema) => schema,
            Rulebook::Rules(accepted, _) => accepted.schema(),
        }
    }
}

/// The rules with their proofs that a text writes.
pub fn drafts_of(alloc: Global, text: &[u8]) -> Result<Drafts, Refusal>
    ensures { Passes (at_rules_text text.now) (λ ds. map draft_tree ds) result }
{
    let file = read_rules(alloc, text)?;
    Ok(file.drafts)
}

/// The laws alone, under a schema.
fn started(alloc: Global, schema: Box<Schema>) -> Result<Accepted, Refusal>
    ensures schema { IfOk result (λ a. a.schema ≡ schema.value) }
    ensures laws { IfOk result (λ a. map rule_tree a.rules ≡ laws) }
    ensures wanted { IfErr result (λ r. r ≡ refusal.Memory) }
{
    match Accepted::start(alloc, Box::into_inner(schema)) {
        Ok(accepted) => Ok(accepted),
        Err((wanted, _schema)) => Err(Refusal::from(wanted)),
    }
}

/// Accepts the rules of drafts behind the laws, in their order.
fn admitted(alloc: Global, schema: Box<Schema>, drafts: Drafts) -> Result<Rulebook, Refusal>
    ensures answer { Passes (at_rules schema.value (map draft_tree drafts)) (λ _. tt) result }
    ensures schema { IfOk result (λ b. book_schema b ≡ schema.value) }
    ensures names { IfOk result (λ b. book_names b ≡ map (λ (d : DraftTree). d.rule.name) (map draft_tree drafts)) }
{
    let mut accepted = started(alloc, schema)?;
    let laws = accepted.rules().len();
    accepted.admit_all(drafts)?;
    let accepted = Box::new(alloc, accepted)?;
    Ok(Rulebook::Rules(accepted, laws))
}

/// Accepts the rules of drafts, in their order.
pub fn accept(alloc: Global, schema: Box<Schema>, drafts: Drafts) -> Result<Rulebook, Refusal>
    ensures answer { Passes (at_rules schema.value (map draft_tree drafts)) (λ _. tt) result }
    ensures schema { IfOk result (λ b. book_schema b ≡ schema.value) }
    ensures names { IfOk result (λ b. book_names b ≡ map (λ (d : DraftTree). d.rule.name) (map draft_tree drafts)) }
{
    if drafts.len() == 0 {
        return Ok(Rulebook::Empty(schema));
    }
    admitted(alloc, schema, drafts)
}

/// Adds the line of a rule.
fn push_accepted(out: &mut Vec<u8>, name: &Name) -> Result<(), Memory>
    ensures { OnOk result (out.new.items ≡ out.old.items ++ accepted_line name.now) }
{
    push_bytes(out, b"rule ")?;
    push_bytes(out, name.as_text().as_bytes())?;
    push_bytes(out, b" ok\n")
}

/// Adds the lines of the rules from a place of the table on.
fn push_all_accepted(out: &mut Vec<u8>, rules: &RuleTable, from: usize) -> Result<(), Memory>
    ensures { OnOk result (out.new.items ≡ out.old.items ++ flat_map accepted_line (names_behind from rules.now)) }
{
    for place in from..rules.len() {
        let Some(rule) = rules.get(place) else { break };
        push_accepted(out, &rule.name)?;
    }
    Ok(())
}

/// Adds the lines of the rules, and answers how many they are.
fn push_book(out: &mut Vec<u8>, book: &Rulebook) -> Result<u64, Memory>
    ensures lines { OnOk result (out.new.items ≡ out.old.items ++ flat_map accepted_line (book_names book.now)) }
    ensures count { IfOk result (λ n. n ≡ length (book_names book.now)) }
{
    match book {
        Rulebook::Empty(_) => Ok(0),
        Rulebook::Rules(accepted, laws) => {
            let rules = accepted.rules();
            push_all_accepted(out, rules, *laws)?;
            Ok(rules.len().saturating_sub(*laws) as u64)
        }
    }
}

/// The report on the rules. No text can write a block yet.
pub fn check_report(alloc: Global, book: &Rulebook) -> Result<Vec<u8>, Memory>
    ensures { IfOk result (λ v. v.items ≡ check_text (book_names book.now) 0) }
{
    let mut out = Vec::new(alloc);
    let count = push_book(&mut out, book)?;
    push_count(alloc, &mut out, b"rules", count)?;
    push_count(alloc, &mut out, b"blocks", 0)?;
    Ok(out)
}
