//! Whole queries from their text.

ghost use Rattle.std.specs.Prelude.{◌≡◌, ℕ, IfOk, IfErr};
ghost use Rattle.std.specs.Option.{option_map};
ghost use Rattle.kola_base.specs.Spelled.{Spells};
ghost use Rattle.oql_syntax.specs.Limits.{QueryWithin};
ghost use Rattle.oql_syntax.specs.QueryAnswers.{SpellsQuery, IsQueryFault, IsQueryRefusal, why_cause, fault_refusal, cause_name, of_lexer};
ghost use Rattle.oql_syntax.specs.QueryFaults.{QueryCause, IsRefusal, IsRead, IsRefused, cause_by, refusal_of};
ghost use Rattle.oql_syntax.specs.QueryForms.{now};
ghost use Rattle.oql_tree.specs.QueryTrees.{QueryTree};
ghost use Rattle.oql_tree.specs.QueryViews.{query_tree};
ghost use Rattle.oql_syntax.specs.declared.read.QueryFault.TheVariants.{Memory};

use crate::outside::word_outside;
use crate::reading::query_of;
use kola_base::{LexFault, LexWhy, Lexemes, tokens};
use kola_core::{Memory, Name};
use kola_parse::{Stop, Why};
use oql_tree::Query;
use std::alloc::{AllocError, Global};

/// How many links a chain may have, and how many levels may stand below a query.
const LIMIT: usize = 100;

/// Why a text is no query.
#[derive(Drop)]
pub enum QueryWhy {
    /// The text has no tokens.
    Lex(LexWhy),
    /// No query begins so.
    Unexpected,
    /// No query begins so: a word of the standard stands there that queries leave out, given as it is written, or what stands there is
    /// behind a `select` and no `distinct`, and the word is `select`.
    NotInProfile { word: Name },
    /// A query begins so, but none within the limits.
    TooDeep,
}

impl QueryWhy {
    /// The cause's name, without the word that it names.
    pub fn name(&self) -> &'static str
        ensures { result.now ≡ cause_name (why_cause self.now) }
    {
        match self {
            QueryWhy::Lex(why) => why.name(),
            QueryWhy::Unexpected => "Unexpected",
            QueryWhy::NotInProfile { .. } => "NotInProfile",
            QueryWhy::TooDeep => "TooDeep",
        }
    }
}

/// The first fault of a text that is no query, or want of memory.
#[derive(Drop)]
pub enum QueryFault {
    /// The place of the fault in bytes from 0, and its cause.
    At { at: usize, why: QueryWhy },
    Memory,
}

impl From<AllocError> for QueryFault {
    ghost from_gives = { λ _ e. e ≡ Memory };

    fn from(_e: AllocError) -> QueryFault {
        QueryFault::Memory
    }
}

impl From<LexFault> for QueryFault {
    ghost from_gives = { λ f e. e ≡ of_lexer f };

    fn from(fault: LexFault) -> QueryFault {
        match fault {
            LexFault::Memory => QueryFault::Memory,
            LexFault::At { at, why } => QueryFault::At {
                at,
                why: QueryWhy::Lex(why),
            },
        }
    }
}

/// The cause of a fault that names the word, if it names one.
fn cause_of(alloc: Global, why: Why, word: Option<&str>) -> Result<QueryWhy, Memory>
    ensures { IfOk result (λ y. why_cause y ≡ cause_by why (option_map now word.entry)) }
{
    match (why, word) {
        (Why::TooDeep, _) => Ok(QueryWhy::TooDeep),
        (Why::Unexpected, Some(word)) => {
            let word = Name::from_text(alloc, word)?;
            Ok(QueryWhy::NotInProfile { word })
        }
        (Why::Unexpected, None) => Ok(QueryWhy::Unexpected),
    }
}

/// The fault where the reader of these tokens stopped, in a text of so many bytes.
fn fault_at<'a>(
    alloc: Global,
    tokens: Lexemes<'a>,
    stop: Stop<Lexemes<'a>>,
    end: usize,
) -> Result<QueryFault, Memory>
    ensures { IfOk result (λ f. fault_refusal f ≡ refusal_of end tokens.entry stop.entry) }
{
    match stop {
        Stop::Memory => Ok(QueryFault::Memory),
        Stop::Before(why, rest) => {
            let why = cause_of(alloc, why, word_outside(tokens, &rest))?;
            Ok(QueryFault::At {
                at: rest.place(end),
                why,
            })
        }
    }
}

/// All of a text as a query, with chains of so many links and so many levels below it.
fn read_within(alloc: Global, text: &[u8], limit: usize) -> Result<Query, QueryFault>
    ensures found { IfOk result (λ q. Spells (QueryWithin limit) text.now (query_tree q)) }
    ensures fault { IfErr result (λ f. IsRefusal QueryWithin limit text.now (fault_refusal f)) }
{
    let tokens = tokens(alloc, text)?;
    let lexemes = Lexemes::from_token(text, &tokens, 0);
    match query_of(alloc, lexemes.again(), limit, limit) {
        Ok(e) => Ok(e.into_inner()),
        Err(stop) => Err(fault_at(alloc, lexemes, stop, text.len())?),
    }
}

/// The query that the text writes, all of it. Places are counted in bytes from 0.
///
/// A chain has at most 100 links behind its first operand, and at most 100 levels of parts stand below the query. The first fault is
/// refused: where the text has no tokens, or else at the first token with which no query goes on, or at the end of the text.
pub fn read_query(alloc: Global, text: &[u8]) -> Result<Query, QueryFault>
    // What is read is written so.
    ensures found { IfOk result (λ q. SpellsQuery text.now (query_tree q)) }
    // What is written so is read, unless memory runs out.
    ensures only { (x : QueryTree) → SpellsQuery text.now x → IsRead query_tree fault_refusal x result }
    // What is refused is refused at its first fault.
    ensures fault { IfErr result (λ f. IsQueryRefusal text.now (fault_refusal f)) }
    // A text that has a first fault is refused there, unless memory runs out.
    ensures only_fault { (at : ℕ) (c : QueryCause) → IsQueryFault text.now at c → IsRefused fault_refusal at c result }
{
    read_within(alloc, text, LIMIT)
}
