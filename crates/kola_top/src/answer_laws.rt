//! What follows from the definition of an answer alone.

ghost use Rattle.std.specs.Prelude.{◌≡◌, ℕ, List};
ghost use Rattle.kola_top.specs.Answer.{Answer};
ghost use Rattle.kola_top.specs.Causes.{AnswersHaveCauses};
ghost use Rattle.kola_top.specs.Deciding.{RulesAreDecided, HasNoRules};
ghost use Rattle.kola_top.specs.declared.status.Status.{Status};

/// Every list of words and every job have no two answers; they have one where it is decided whether the drafts of the job are valid, as it is
/// where there are none; and it is not so that they have none.
pub fn a_job_has_exactly_one_answer()
    ensures one { (words : List (List ℕ)) (job : List ℕ) (s t : Status) (b c : List ℕ) →
        Answer words job s b → Answer words job t c → (s ≡ t) × (b ≡ c) }
    ensures some { (words : List (List ℕ)) (job : List ℕ) →
        RulesAreDecided words job → (s : Status) × ((b : List ℕ) × Answer words job s b) }
    ensures decided { (words : List (List ℕ)) (job : List ℕ) → HasNoRules words job → RulesAreDecided words job }
    ensures not_none { (words : List (List ℕ)) (job : List ℕ) →
        ((s : Status) (b : List ℕ) → Answer words job s b → ⊥) → ⊥ }
{}

/// Each answer to the words and a job has the cause that its status names, and no earlier one: `Usage` words that are no command, `TooLong`
/// a job that is longer than it may be, `Layout` a faulty line or a section that the action needs and that is not there, `Schema` and
/// `Database` a text that is refused, `Rules` a text that writes no rules, or a rule that is refused, `Query` a text that spells no
/// query or one that has no type, `TermTooLarge` a query whose term is too large, `Visits` a term that visits more members than
/// may be visited; and `Ok` a job of which all is accepted that the action asks for.
pub fn answers_have_causes()
    ensures { AnswersHaveCauses }
{}
