//! A law of printing and reading.

ghost use Rattle.oql_laws.specs.Unplaced.{SpellsUpToPlaces};
ghost use Rattle.oql_syntax.specs.QueryAnswers.{SpellsQuery};
ghost use Rattle.oql_print.specs.QuerySpelling.{query_spelling};
ghost use Rattle.oql_tree.specs.QueryTrees.{QueryTree};

/// What is printed of a query is read again: the canonical spelling of each query that some text spells, spells a query that is the
/// same up to places. So `read_query` reads that query from what `print_query` writes of one that it has answered, unless memory runs
/// out.
pub fn printed_queries_are_read_again(text: &[u8])
    ensures { (x : QueryTree) → SpellsQuery text.now x → SpellsUpToPlaces (query_spelling x) x }
{}
