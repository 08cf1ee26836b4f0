//! The top call: a job in, a report out.
#![tactic(auto)]

mod answer;
mod answer_laws;
mod asked;
mod fault_lines;
mod laws;
mod layout;
mod lines;
mod output;
mod refusal;
mod rules;
mod run;
mod section;
mod status;
mod valued;
mod words;

pub use answer_laws::{a_job_has_exactly_one_answer, answers_have_causes};
pub use laws::lines_make_up_the_job;
pub use layout::{LayoutFault, LayoutWhy, sections};
pub use run::run_kola;
pub use section::{Sections, Span};
pub use status::Status;
