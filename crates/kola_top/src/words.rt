//! What the words of the command line ask for, and what an action needs.

ghost use Rattle.std.specs.Prelude.{◌≡◌, map};
ghost use Rattle.std.specs.String.{string_bytes};
ghost use Rattle.kola_top.specs.Words.{action_of, needs};

use crate::section::Section;

/// What the program is asked to do.
#[derive(Clone, Copy)]
pub enum Action {
    /// Check the rules of a job with their proofs.
    Check,
    /// Translate the query of a job to its term.
    Translate,
    /// Answer the query of a job.
    Run,
}

impl Action {
    /// The section of a job that the action needs.
    pub fn needs(self) -> Section
        ensures { result ≡ needs self }
    {
        match self {
            Action::Check => Section::Rules,
            Action::Translate | Action::Run => Section::Query,
        }
    }
}

/// The action that the words ask for, and `None` where they are no command.
pub fn action_of(words: &[String]) -> Option<Action>
    ensures { result ≡ action_of (map string_bytes words.now) }
{
    match words {
        [word] if word.as_str() == "check" => Some(Action::Check),
        [word] if word.as_str() == "translate" => Some(Action::Translate),
        [word] if word.as_str() == "run" => Some(Action::Run),
        _ => None,
    }
}
