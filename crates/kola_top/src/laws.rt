//! What follows from the definitions alone.

ghost use Rattle.std.specs.Prelude.{◌≡◌, ℕ, List, length, map};
ghost use Rattle.std.specs.Str.Lines.{lines};
ghost use Rattle.kola_top.specs.Layout.{AreInARow, Line, lines_of};

/// The lines of a job are those of `str::lines`, and lie one behind another from its first byte to its end.
pub fn lines_make_up_the_job()
    ensures bytes { (job : List ℕ) → map (λ (l : Line). l.bytes) (lines_of job) ≡ lines job }
    ensures row { (job : List ℕ) → AreInARow 0 (length job) (lines_of job) }
{}
