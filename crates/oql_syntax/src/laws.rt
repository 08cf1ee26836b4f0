//! Laws of the texts of queries.

ghost use Rattle.std.specs.Prelude.{◌≡◌, ◌⊎◌, ◌↔◌, ℕ, true, codes};
ghost use Rattle.kola_parse.specs.Faults.{Unlimited};
ghost use Rattle.kola_parse.specs.declared.why.Why.TheVariants.{Unexpected};
ghost use Rattle.oql_syntax.specs.Limits.{QueryWithin, greatest_query};
ghost use Rattle.oql_syntax.specs.QueryAnswers.{SpellsQuery, IsQueryFault};
ghost use Rattle.oql_syntax.specs.QueryFaults.{QueryCause, CNotInProfile, QuerySyntaxAt, last_is_select, DistinctMayFollow};
ghost use Rattle.oql_tree.specs.QueryTrees.{QueryTree};

/// Each text writes a query or has a first fault, one query or one place and cause, and never both.
pub fn a_text_is_one_query_or_has_one_fault(text: &[u8])
    ensures some { ((x : QueryTree) × SpellsQuery text.now x)
        ⊎ ((at : ℕ) × (c : QueryCause) × IsQueryFault text.now at c) }
    ensures one_query { (x y : QueryTree) → SpellsQuery text.now x → SpellsQuery text.now y → x ≡ y }
    ensures not_both { (x : QueryTree) (at : ℕ) (c : QueryCause) →
        SpellsQuery text.now x → IsQueryFault text.now at c → ⊥ }
    ensures one_fault { (at to : ℕ) (c d : QueryCause) →
        IsQueryFault text.now at c → IsQueryFault text.now to d → (at ≡ to) × (c ≡ d) }
{}

/// A fault names the word `select` exactly where no query goes on, the word before the fault is a `select`, and some query has
/// `distinct` behind it.
pub fn a_fault_names_a_select_where_distinct_could_follow(text: &[u8])
    ensures { (at : ℕ) (c : QueryCause) (h : QuerySyntaxAt QueryWithin greatest_query text.now at c) →
        (c ≡ CNotInProfile (codes "select")) ↔ ((h.faults.fault.why ≡ Unexpected)
        × (last_is_select h.faults.first.before ≡ true)
        × DistinctMayFollow (Unlimited QueryWithin) h.faults.first.before) }
{}
