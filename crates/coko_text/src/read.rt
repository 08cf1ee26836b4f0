//! Rules with their proofs from their text.

ghost use Rattle.std.specs.Prelude.{◌≡◌, List, ℕ, map, IfOk, IfErr, ◌<◌};
ghost use Rattle.kola_base.specs.Spelled.{Spells, IsAnswer, IsFaultAnswer, IsFault, FaultOfText};
ghost use Rattle.kola_base.specs.declared.text_fault.TextWhy.{TextWhy};
ghost use Rattle.kola_rule.specs.Rules.{DraftTree};
ghost use Rattle.kola_rule.specs.RuleViews.{draft_tree};
ghost use Rattle.coko_text.specs.Limits.{greatest_nesting};
ghost use Rattle.coko_text.specs.RuleGrammar.{FileText};
ghost use Rattle.coko_text.specs.RuleViews.{file_tree};

use crate::rule::file_of;
use kola_base::{Lexemes, TextFault, fault_at, tokens};
use kola_rule::Drafts;
use std::alloc::Global;

/// How many constructors may stand round a name of a type.
const NESTING: usize = 99;

/// What a text of rules writes.
#[derive(Drop)]
pub struct RuleFile {
    /// The rules with their proofs, in their order.
    pub drafts: Drafts,
}

/// The rules that a text writes, where so many constructors may stand round a name of a type.
fn read_within(alloc: Global, text: &[u8], nesting: usize) -> Result<RuleFile, TextFault>
    requires { nesting < 1000 }
    ensures found { IfOk result (λ f. Spells (FileText nesting) text.now (file_tree f)) }
    ensures fault { IfErr result (λ e. IsFault FileText nesting text.now e) }
{
    let tokens = tokens(alloc, text)?;
    match file_of(alloc, Lexemes::from_token(text, &tokens, 0), nesting) {
        Ok(drafts) => Ok(RuleFile { drafts }),
        Err(stop) => Err(fault_at(stop, text.len())),
    }
}

/// The rules with their proofs that a text writes, all of it; else the first fault of the text, or want of memory.
/// Places are counted in bytes from 0.
///
/// A rule's variables stand for functions, predicates and constants, each in places of its kind; of two variables of one
/// name the first counts. Any other name in the place of a constant is an extent. A term is at most 256 deep, and at most
/// 99 constructors stand round a name in a type.
pub fn read_rules(alloc: Global, text: &[u8]) -> Result<RuleFile, TextFault>
    // What is read is written so.
    ensures found { IfOk result (λ f. Spells (FileText greatest_nesting) text.now (file_tree f)) }
    // What is written so is read, unless memory runs out.
    ensures only { (x : List DraftTree) → Spells (FileText greatest_nesting) text.now x → IsAnswer file_tree x result }
    // What is refused is refused at its first fault.
    ensures fault { IfErr result (λ e. IsFault FileText greatest_nesting text.now e) }
    // A text that has a first fault is refused there, unless memory runs out.
    ensures only_fault { (at : ℕ) (w : TextWhy) → FaultOfText FileText greatest_nesting text.now at w →
        IsFaultAnswer at w result }
{
    read_within(alloc, text, NESTING)
}
