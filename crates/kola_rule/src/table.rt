//! Tables of rules, each found by its name.

ghost use Rattle.std.specs.Prelude.{◌≡◌, [], ◌∷◌, ◌++◌, false, true, is_some, length, position, slice_get};
ghost use Rattle.std.specs.Prelude.{IfOk, OnOk, OnErr, IfErr};
ghost use Rattle.std.specs.Option.{option_copied};
ghost use Rattle.std.specs.Str.{bytes_eq};
ghost use Rattle.kola_core.specs.NameLists.{is_listed};
ghost use Rattle.kola_schema.specs.Schemas.{are_distinct};
ghost use Rattle.kola_rule.specs.Tables.{rule_names};

use crate::rule::Rule;
use kola_core::{Memory, Name, NameTable};
use std::alloc::Global;
use std::marker::Model;

/// Rules with distinct names, each found by its name in constant expected time. Contracts see it as the list of its
/// rules.
#[derive(Drop)]
pub struct RuleTable {
    rules: Vec<Rule>,
    names: NameTable,
}

impl Model for RuleTable {
    ghost use Rattle.std.specs.Prelude.{List};
    ghost use Rattle.std.specs.Coded.{coded_list};
    ghost use Rattle.kola_rule.specs.declared.rule.Rule.{Rule};
    ghost use Rattle.kola_rule.specs.contracts.rule.Rule as rule;

    ghost Value = { List Rule };

    ghost coded = { coded_list rule.the_row.coded };

    ghost use Rattle.std.specs.Prelude.{◌≡◌, true};
    ghost use Rattle.kola_schema.specs.Schemas.{are_distinct};
    ghost use Rattle.kola_rule.specs.Tables.{rule_names};

    ghost view = { λ a. a.rules.items };

    ghost invariant = { λ a. (a.names ≡ rule_names a.rules.items) × (are_distinct (rule_names a.rules.items) ≡ true) };
}

/// Whether no two rules have one name. It takes linear expected time.
pub fn names_are_distinct(alloc: Global, rules: &[Rule]) -> Result<bool, Memory>
    ensures { IfOk result (λ b. b ≡ are_distinct (rule_names rules.now)) }
{
    let mut names = NameTable::new(alloc);
    for rule in rules {
        if !names.add(rule.name.as_text())? {
            return Ok(false);
        }
    }
    Ok(true)
}

/// The names of rules, in their order.
fn names_of(alloc: Global, rules: &[Rule]) -> Result<NameTable, Memory>
    requires { are_distinct (rule_names rules.now) ≡ true }
    ensures { IfOk result (λ t. t ≡ rule_names rules.now) }
{
    let mut names = NameTable::new(alloc);
    for rule in rules {
        names.add(rule.name.as_text())?;
    }
    Ok(names)
}

impl RuleTable {
    /// The table of these rules, in their order. No two may have one name, which `names_are_distinct` tests.
    pub fn from_rules(alloc: Global, rules: Vec<Rule>) -> Result<RuleTable, Memory>
        requires { are_distinct (rule_names rules.items) ≡ true }
        ensures { IfOk result (λ t. t ≡ rules.items) }
    {
        let names = names_of(alloc, rules.as_slice())?;
        Ok(RuleTable { rules, names })
    }

    /// The table of no rule.
    pub fn new(alloc: Global) -> RuleTable
        ensures { result ≡ [] }
    {
        RuleTable {
            rules: Vec::new(alloc),
            names: NameTable::new(alloc),
        }
    }

    /// What every table keeps: no two of its rules have one name. It does nothing else.
    pub fn well_formed(&self)
        ensures { are_distinct (rule_names self.now) ≡ true }
    {
        let _rules = &self.rules;
    }

    /// The number of rules.
    pub fn len(&self) -> usize
        ensures { result ≡ length self.now }
    {
        self.rules.len()
    }

    /// The rule at place `n`, counted from 0; `None` past the end.
    pub fn get(&self, n: usize) -> Option<&Rule>
        ensures { option_copied result ≡ slice_get self.now n }
    {
        self.rules.get(n)
    }

    /// The place of the rule of a name, counted from 0; `None` where no rule has the name. It takes constant expected
    /// time.
    pub fn find(&self, name: &Name) -> Option<usize>
        ensures place { result ≡ position (bytes_eq name.now) (rule_names self.now) }
        ensures listed { is_some result ≡ is_listed name.now (rule_names self.now) }
    {
        self.names.place(name.as_text())
    }

    /// Adds a rule at the end. No rule of the table may have its name, as where `find` has not found it. Where memory is
    /// wanted, the table stays as it was, and the rule is handed back.
    pub fn push(&mut self, rule: Rule) -> Result<(), (Memory, Rule)>
        requires { is_listed rule.name (rule_names self.old) ≡ false }
        ensures ok { OnOk result (self.new ≡ self.old ++ rule ∷ []) }
        ensures err { OnErr result (self.new ≡ self.old) }
        ensures handed_back { IfErr result (λ e. e.1 ≡ rule) }
    {
        if let Err(e) = self.rules.reserve(1) {
            return Err((e, rule));
        }
        if let Err(e) = self.names.add(rule.name.as_text()) {
            return Err((e, rule));
        }
        self.rules.push_reserved(rule);
        Ok(())
    }
}
