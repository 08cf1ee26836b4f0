//! What holds of drafts. Each is a function that does nothing.

ghost use Rattle.std.specs.Prelude.{◌≡◌, ℕ, true, List};
ghost use Rattle.kola_values.specs.Databases.{Classes};
ghost use Rattle.kola_values.specs.Sets.{Each};
ghost use Rattle.kola_schema.specs.Schemas.{is_schema};
ghost use Rattle.kola_rule.specs.Rules.{RuleTree, DraftTree};
ghost use Rattle.kola_match.specs.Holding.{Holds};
ghost use Rattle.kola_proof.specs.Drafts.{Valid, FirstBad, AreValid, FirstBadDraft};
ghost use Rattle.kola_proof.specs.declared.fault.StepWhy.{StepWhy};

/// Under a well-formed schema, the rule of a valid draft holds where all rules hold by which it may be proved: in every
/// database that meets the schema, whatever places its steps change, in whatever direction, where the conditions of
/// those rules are shown or supposed.
pub fn proved_rules_hold()
    ensures { (S : Classes) → is_schema S ≡ true → (rules : List RuleTree) (d : DraftTree) → Each (Holds S) rules →
        Valid S rules d → Holds S d.rule }
{}

/// A draft is valid or has a first fault: it is not so that it is neither, it is not both, and it has no two first
/// faults.
pub fn a_draft_is_valid_or_has_one_first_fault()
    ensures some { (S : Classes) (rules : List RuleTree) (d : DraftTree) → (Valid S rules d → ⊥) →
        ((n : ℕ) (w : StepWhy) → FirstBad S rules d n w → ⊥) → ⊥ }
    ensures not_both { (S : Classes) (rules : List RuleTree) (d : DraftTree) (n : ℕ) (w : StepWhy) →
        Valid S rules d → FirstBad S rules d n w → ⊥ }
    ensures one { (S : Classes) (rules : List RuleTree) (d : DraftTree) (n m : ℕ) (w v : StepWhy) →
        FirstBad S rules d n w → FirstBad S rules d m v → (n ≡ m) × (w ≡ v) }
{}

/// The drafts of a file are valid, each by the rules before it, or there is a first that is not: it is not so that there is
/// neither, there are not both, and there are no two first faults.
pub fn drafts_are_valid_or_have_one_first_fault()
    ensures some { (S : Classes) (rules : List RuleTree) (ds : List DraftTree) → (AreValid S rules ds → ⊥) →
        ((m : List ℕ) (n : ℕ) (w : StepWhy) → FirstBadDraft S rules ds m n w → ⊥) → ⊥ }
    ensures not_both { (S : Classes) (rules : List RuleTree) (ds : List DraftTree) (m : List ℕ) (n : ℕ) (w : StepWhy) →
        AreValid S rules ds → FirstBadDraft S rules ds m n w → ⊥ }
    ensures one { (S : Classes) (rules : List RuleTree) (ds : List DraftTree) (m k : List ℕ) (n j : ℕ) (w v : StepWhy) →
        FirstBadDraft S rules ds m n w → FirstBadDraft S rules ds k j v → (m ≡ k) × (n ≡ j) × (w ≡ v) }
{}
