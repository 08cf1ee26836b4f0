//! A law of the tests by which a list of classes is a schema.
ghost use Rattle.std.specs.Prelude.{◌≡◌, ◌≢◌, ◌↔◌, ℕ, List, true, AllPairs, Contains};
ghost use Rattle.kola_core.specs.NameLists.{is_listed};
ghost use Rattle.kola_schema.specs.Schemas.{are_distinct};

/// The test whether a name is listed answers true exactly where it is an entry of the list, and the test whether names are distinct exactly
/// where no two entries are the same.
pub fn tests_of_names_are_exact()
    ensures listed { (n : List ℕ) (ms : List (List ℕ)) → ((is_listed n ms ≡ true) ↔ Contains ms n) }
    ensures distinct { (ns : List (List ℕ)) → ((are_distinct ns ≡ true) ↔ AllPairs (λ m n. m ≢ n) ns) }
{}
