//! Rules that were accepted under a schema.

ghost use Rattle.std.specs.Prelude.{◌≡◌, [], ◌∷◌, ◌++◌, map, IfOk, IfErr, OnOk, OnErr};
ghost use Rattle.kola_rule.specs.RuleViews.{rule_tree, draft_tree};
ghost use Rattle.kola_match.specs.Holding.{Holds};
ghost use Rattle.kola_laws.specs.Laws.{laws};
ghost use Rattle.kola_proof.specs.Accepting.{IsAccepted, IsVerdict, handed_back, rules_of, IsFileVerdict, HasGrown};

use crate::draft::check;
use crate::fault::{AdmitFault, CheckFault, FileFault};
use crate::table::add;
use kola_core::Memory;
use kola_laws::laws;
use kola_rule::{Draft, Drafts, RuleTable};
use kola_schema::Schema;
use std::alloc::Global;
use std::marker::Model;

/// The laws and the rules that were accepted after them, under a schema. Every rule in it holds in every database that
/// meets the schema. Contracts see it as the schema and the list of the rules.
#[derive(Drop)]
pub struct Accepted {
    alloc: Global,
    schema: Schema,
    rules: RuleTable,
}

impl Model for Accepted {
    ghost use Rattle.std.specs.Coded.{codes, coded_list};
    ghost use Rattle.kola_values.specs.Models.TypeCode.{type_code};
    ghost use Rattle.kola_rule.specs.contracts.rule.Rule as rule;
    ghost use Rattle.kola_proof.specs.Accepting.{Accepted};

    ghost Value = { Accepted };

    ghost coded = { Prim.hlevel (codes, type_code, rule.the_row.coded) };

    ghost use Rattle.std.specs.Prelude.{map};
    ghost use Rattle.kola_rule.specs.RuleViews.{rule_tree};
    ghost use Rattle.kola_proof.specs.Accepting.{IsAccepted};

    ghost view = { λ a. record { schema = a.schema; rules = a.rules } };

    ghost invariant = { λ a. IsAccepted a.schema (map rule_tree a.rules) };
}

impl Accepted {
    /// The laws alone, under a schema. Where memory is wanted, the schema is handed back.
    pub fn start(alloc: Global, schema: Schema) -> Result<Accepted, (Memory, Schema)>
        ensures schema { IfOk result (λ a. a.schema ≡ schema) }
        ensures laws { IfOk result (λ a. map rule_tree a.rules ≡ laws) }
        ensures handed_back { IfErr result (λ e. e.1 ≡ schema) }
    {
        match laws(alloc) {
            Ok(rules) => Ok(Accepted {
                alloc,
                schema,
                rules,
            }),
            Err(e) => Err((e, schema)),
        }
    }

    /// The rules: the laws first, then those that were accepted, in their order.
    pub fn rules(&self) -> &RuleTable
        ensures { result.now ≡ self.now.rules }
    {
        &self.rules
    }

    /// The schema.
    pub fn schema(&self) -> &Schema
        ensures { result.now ≡ self.now.schema }
    {
        &self.schema
    }

    /// What is always so: the laws come first, and every rule is well typed and holds in every database that meets the
    /// schema. It does nothing else.
    pub fn well_formed(&self)
        ensures { IsAccepted self.now.schema (map rule_tree self.now.rules) }
    {
        let _rules = &self.rules;
    }

    /// Accepts the rule of a draft, where its proof is valid by the laws and the rules that were accepted before: it is
    /// added at the end, and holds in every database that meets the schema. `Refused` names the draft's first fault. With
    /// every fault the draft is handed back, and what was accepted stays as it was. It takes time by the text of the
    /// draft.
    pub fn admit(&mut self, draft: Draft) -> Result<(), AdmitFault>
        ensures verdict { IsVerdict self.old.schema (map rule_tree self.old.rules) (draft_tree draft) result }
        ensures grown { OnOk result (self.new.rules ≡ self.old.rules ++ draft.rule ∷ []) }
        ensures holds { OnOk result (Holds self.old.schema (rule_tree draft.rule)) }
        ensures schema { self.new.schema ≡ self.old.schema }
        ensures unchanged { OnErr result (self.new.rules ≡ self.old.rules) }
        ensures handed_back { IfErr result (λ e. handed_back e ≡ draft) }
    {
        self.schema.well_formed();
        match check(self.alloc, &self.schema, &self.rules, &draft) {
            Ok(()) => add(&mut self.rules, draft),
            Err(CheckFault::At(step, why)) => Err(AdmitFault::Refused { step, why, draft }),
            Err(CheckFault::Memory) => Err(AdmitFault::Memory { draft }),
        }
    }

    /// Accepts the rules of the drafts of a file, in their order, each as `admit` does: by the laws and the rules before
    /// it. `Refused` names the first draft that has a fault. With every fault the rules of the drafts before it stay
    /// accepted. It takes time by the text of the drafts.
    pub fn admit_all(&mut self, drafts: Drafts) -> Result<(), FileFault>
        ensures verdict { IsFileVerdict self.old.schema (map rule_tree self.old.rules) (map draft_tree drafts) result }
        ensures all { OnOk result (self.new.rules ≡ self.old.rules ++ rules_of drafts) }
        ensures grown { HasGrown self.old.rules self.new.rules drafts }
        ensures schema { self.new.schema ≡ self.old.schema }
    {
        for draft in drafts.into_vec() {
            self.admit(draft)?;
        }
        Ok(())
    }
}
