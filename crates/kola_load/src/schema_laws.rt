//! A law about the schemas of texts.

ghost use Rattle.std.specs.Prelude.{◌≡◌, ◌⊎◌, ℕ};
ghost use Rattle.kola_values.specs.Databases.{Classes};
ghost use Rattle.kola_load.specs.SchemaAccepted.{greatest_nesting, Writes, FaultOf};
ghost use Rattle.kola_load.specs.declared.schema_fault.SchemaWhy.{SchemaWhy};

/// Each text writes a schema or has a first fault, one schema or one place and cause, and never both.
pub fn a_text_is_one_schema_or_has_one_fault(text: &[u8])
    ensures some { ((S : Classes) × Writes greatest_nesting text.now S)
        ⊎ ((at : ℕ) × (why : SchemaWhy) × FaultOf greatest_nesting text.now at why) }
    ensures one_schema { (S T : Classes) → Writes greatest_nesting text.now S → Writes greatest_nesting text.now T → S
        ≡ T }
    ensures not_both { (S : Classes) (at : ℕ) (why : SchemaWhy) → Writes greatest_nesting text.now S →
        FaultOf greatest_nesting text.now at why → ⊥ }
    ensures one_fault { (at to : ℕ) (why cause : SchemaWhy) → FaultOf greatest_nesting text.now at why →
        FaultOf greatest_nesting text.now to cause
        → (at ≡ to) × (why ≡ cause) }
{}
