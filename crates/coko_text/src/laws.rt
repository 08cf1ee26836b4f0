//! A law about the texts of rules.

ghost use Rattle.std.specs.Prelude.{◌≡◌, ◌⊎◌, List, ℕ};
ghost use Rattle.kola_base.specs.Spelled.{Spells, FaultOfText};
ghost use Rattle.kola_base.specs.declared.text_fault.TextWhy.{TextWhy};
ghost use Rattle.kola_rule.specs.Rules.{DraftTree};
ghost use Rattle.coko_text.specs.Limits.{greatest_nesting};
ghost use Rattle.coko_text.specs.RuleGrammar.{FileText};

/// Each text writes rules or has a first fault, one list of rules or one place and cause, and never both.
pub fn a_text_is_one_file_or_has_one_fault(text: &[u8])
    ensures some { ((x : List DraftTree) × Spells (FileText greatest_nesting) text.now x)
        ⊎ ((at : ℕ) × (why : TextWhy) × FaultOfText FileText greatest_nesting text.now at why) }
    ensures one_file { (x y : List DraftTree) → Spells (FileText greatest_nesting) text.now x
        → Spells (FileText greatest_nesting) text.now y → x ≡ y }
    ensures not_both { (x : List DraftTree) (at : ℕ) (why : TextWhy) → Spells (FileText greatest_nesting) text.now x
        → FaultOfText FileText greatest_nesting text.now at why → ⊥ }
    ensures one_fault { (at to : ℕ) (why cause : TextWhy) → FaultOfText FileText greatest_nesting text.now at why
        → FaultOfText FileText greatest_nesting text.now to cause → (at ≡ to) × (why ≡ cause) }
{}
