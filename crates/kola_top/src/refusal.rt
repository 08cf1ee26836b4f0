//! Why a job has no report, with the status and the line of each refusal.

ghost use Rattle.std.specs.Prelude.{◌≡◌, true, IfOk};
ghost use Rattle.kola_top.specs.Refusals.{is_told, status_of, line_of};

use crate::fault_lines::{
    database_line, query_fault_line, query_type_line, rule_line, rules_line, schema_line,
    too_large_line, visits_line,
};
use crate::layout::LayoutFault;
use crate::output::{layout_fault_line, missing_line};
use crate::section::Section;
use crate::status::Status;
use kola_base::{TextFault, TextWhy};
use kola_core::{Memory, Name};
use kola_eval::EvalFault;
use kola_load::{DbFault, SchemaFault, SchemaWhy};
use kola_proof::{FileFault, StepWhy};
use kola_translate::TranslateFault;
use oql_check::{CheckFault, CheckWhy};
use oql_syntax::{QueryFault, QueryWhy};
use std::alloc::{AllocError, AllocFailed, Global};

/// Why a job has no report: the first refusal on its way.
#[derive(Drop)]
pub enum Refusal {
    /// A line breaks the layout.
    Layout(LayoutFault),
    /// A section that is needed would stand in this line, behind the last.
    Missing(u64, Section),
    /// The schema's text is refused, at a place in it.
    Schema(usize, SchemaWhy),
    /// The text of the rules is refused, at a place in it.
    Rules(usize, TextWhy),
    /// The rule of the name is refused, at a step of its proof.
    Rule(Name, usize, StepWhy),
    /// The query's text is refused, at a place in it.
    Query(usize, QueryWhy),
    /// The query has no type, for what stands at a place in its text.
    QueryType(usize, CheckWhy),
    /// The query's term is larger than a term may be.
    TermTooLarge,
    /// The database's text is refused.
    Database(DbFault),
    /// The query's term would visit more members than so many.
    Visits(u64),
    /// Memory is wanted.
    Memory,
}

impl From<LayoutFault> for Refusal {
    ghost use Rattle.std.specs.Prelude.{◌≡◌};
    ghost use Rattle.kola_top.specs.declared.refusal.Refusal.TheVariants.{Layout};

    ghost from_gives = { λ fault r. r ≡ Layout fault };

    fn from(fault: LayoutFault) -> Refusal {
        Refusal::Layout(fault)
    }
}

impl From<SchemaFault> for Refusal {
    ghost use Rattle.std.specs.Prelude.{◌≡◌};
    ghost use Rattle.kola_top.specs.Refusals.{of_schema};

    ghost from_gives = { λ fault r. r ≡ of_schema fault };

    fn from(fault: SchemaFault) -> Refusal {
        match fault {
            SchemaFault::At { at, why } => Refusal::Schema(at, why),
            SchemaFault::Memory => Refusal::Memory,
        }
    }
}

impl From<TextFault> for Refusal {
    ghost use Rattle.std.specs.Prelude.{◌≡◌};
    ghost use Rattle.kola_top.specs.Refusals.{of_rules};

    ghost from_gives = { λ fault r. r ≡ of_rules fault };

    fn from(fault: TextFault) -> Refusal {
        match fault {
            TextFault::At { at, why } => Refusal::Rules(at, why),
            TextFault::Memory => Refusal::Memory,
        }
    }
}

impl From<FileFault> for Refusal {
    ghost use Rattle.std.specs.Prelude.{◌≡◌};
    ghost use Rattle.kola_top.specs.Refusals.{of_file};

    ghost from_gives = { λ fault r. r ≡ of_file fault };

    fn from(fault: FileFault) -> Refusal {
        match fault {
            FileFault::Refused { name, step, why } => Refusal::Rule(name, step, why),
            FileFault::Memory => Refusal::Memory,
        }
    }
}

impl From<QueryFault> for Refusal {
    ghost use Rattle.std.specs.Prelude.{◌≡◌};
    ghost use Rattle.kola_top.specs.Refusals.{of_query};

    ghost from_gives = { λ fault r. r ≡ of_query fault };

    fn from(fault: QueryFault) -> Refusal {
        match fault {
            QueryFault::At { at, why } => Refusal::Query(at, why),
            QueryFault::Memory => Refusal::Memory,
        }
    }
}

impl From<CheckFault> for Refusal {
    ghost use Rattle.std.specs.Prelude.{◌≡◌};
    ghost use Rattle.kola_top.specs.Refusals.{of_check};

    ghost from_gives = { λ fault r. r ≡ of_check fault };

    fn from(fault: CheckFault) -> Refusal {
        match fault {
            CheckFault::At { at, why } => Refusal::QueryType(at, why),
            CheckFault::Memory => Refusal::Memory,
        }
    }
}

impl From<TranslateFault> for Refusal {
    ghost use Rattle.std.specs.Prelude.{◌≡◌};
    ghost use Rattle.kola_top.specs.Refusals.{of_translate};

    ghost from_gives = { λ fault r. r ≡ of_translate fault };

    fn from(fault: TranslateFault) -> Refusal {
        match fault {
            TranslateFault::TooLarge => Refusal::TermTooLarge,
            TranslateFault::Memory => Refusal::Memory,
        }
    }
}

impl From<EvalFault> for Refusal {
    ghost use Rattle.std.specs.Prelude.{◌≡◌};
    ghost use Rattle.kola_top.specs.Refusals.{of_eval};

    ghost from_gives = { λ fault r. r ≡ of_eval fault };

    fn from(fault: EvalFault) -> Refusal {
        match fault {
            EvalFault::VisitLimit { limit } => Refusal::Visits(limit),
            EvalFault::Memory => Refusal::Memory,
        }
    }
}

impl From<Memory> for Refusal {
    ghost use Rattle.std.specs.Prelude.{◌≡◌};
    ghost use Rattle.kola_top.specs.declared.refusal.Refusal.TheVariants.{Memory};

    ghost from_gives = { λ _ r. r ≡ Memory };

    fn from(_refused: Memory) -> Refusal {
        Refusal::Memory
    }
}

impl<T: Drop> From<AllocFailed<T>> for Refusal {
    ghost use Rattle.std.specs.Prelude.{◌≡◌};
    ghost use Rattle.kola_top.specs.declared.refusal.Refusal.TheVariants.{Memory};

    ghost from_gives = { λ _ r. r ≡ Memory };

    fn from(_refused: AllocFailed<T>) -> Refusal {
        Refusal::Memory
    }
}

impl Refusal {
    /// The status with which the program then ends.
    pub fn status(&self) -> Status
        ensures { result ≡ status_of self.now }
    {
        match self {
            Refusal::Layout(_) | Refusal::Missing(_, _) => Status::Layout,
            Refusal::Schema(_, _) => Status::Schema,
            Refusal::Rules(_, _) | Refusal::Rule(_, _, _) => Status::Rules,
            Refusal::Query(_, _) | Refusal::QueryType(_, _) => Status::Query,
            Refusal::TermTooLarge => Status::TermTooLarge,
            Refusal::Database(_) => Status::Database,
            Refusal::Visits(_) => Status::Visits,
            Refusal::Memory => Status::Memory,
        }
    }

    /// The line that is then written. Where memory is wanted there is none, and that is told again.
    pub fn line(&self, alloc: Global) -> Result<Vec<u8>, Memory>
        ensures line { IfOk result (λ v. v.items ≡ line_of self.now) }
        ensures told { IfOk result (λ _. is_told self.now ≡ true) }
    {
        match self {
            Refusal::Layout(fault) => Ok(layout_fault_line(alloc, *fault)?.into_bytes()),
            Refusal::Missing(line, section) => {
                Ok(missing_line(alloc, *line, *section)?.into_bytes())
            }
            Refusal::Schema(at, why) => Ok(schema_line(alloc, *at, *why)?.into_bytes()),
            Refusal::Rules(at, why) => Ok(rules_line(alloc, *at, *why)?.into_bytes()),
            Refusal::Rule(name, step, why) => {
                Ok(rule_line(alloc, name, *step, *why)?.into_bytes())
            }
            Refusal::Query(at, why) => Ok(query_fault_line(alloc, *at, why)?.into_bytes()),
            Refusal::QueryType(at, why) => Ok(query_type_line(alloc, *at, *why)?.into_bytes()),
            Refusal::TermTooLarge => too_large_line(alloc),
            Refusal::Database(fault) => database_line(alloc, fault),
            Refusal::Visits(limit) => Ok(visits_line(alloc, *limit)?.into_bytes()),
            Refusal::Memory => Err(AllocError),
        }
    }
}
