//! What holds of the laws. Each is a function that does nothing.

ghost use Rattle.kola_values.specs.Databases.{Classes};
ghost use Rattle.kola_values.specs.Sets.{Each};
ghost use Rattle.kola_match.specs.Holding.{Holds};
ghost use Rattle.kola_match.specs.RuleOk.{RuleOk};
ghost use Rattle.kola_laws.specs.Laws.{laws};

/// Each law holds under every schema: in every database that meets it, under every typed substitution without variables
/// whose functions in the law's conditions are injective there, both sides have one value or one truth.
pub fn every_law_holds()
    ensures { (S : Classes) → Each (Holds S) laws }
{}

/// Each law is well typed under every schema: its variables have distinct names and stand on a side, its conditions
/// name functions, and its sides fit at the input type, with one output type.
pub fn every_law_is_well_typed()
    ensures { (S : Classes) → Each (RuleOk S) laws }
{}
