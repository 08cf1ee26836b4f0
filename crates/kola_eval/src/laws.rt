//! What the value and the visits of a term do not depend on.
ghost use Rattle.std.specs.Prelude.{◌≡◌, IsPermutation};
ghost use Rattle.kola_values.specs.Values.{ValueTree};
ghost use Rattle.kola_values.specs.Databases.{Classes, Objects};
ghost use Rattle.kola_schema.specs.Meets.{Meets};
ghost use Rattle.kola_term.specs.Terms.{FunTree, PredTree};
ghost use Rattle.kola_term.specs.Meaning.{den, holds_at};
ghost use Rattle.kola_term.specs.Visits.{visits, pred_visits};

/// The value and the visits of a term are the same in two databases of the same objects, in whatever order they stand.
pub fn the_order_of_objects_does_not_matter()
    ensures value { (S : Classes) (d e : Objects) → IsPermutation d e → Meets S e → (f : FunTree) (v : ValueTree) →
        den S d f v ≡ den S e f v }
    ensures truth { (S : Classes) (d e : Objects) → IsPermutation d e → Meets S e → (p : PredTree) (v : ValueTree) →
        holds_at S d p v ≡ holds_at S e p v }
    ensures visits { (S : Classes) (d e : Objects) → IsPermutation d e → Meets S e → (f : FunTree) (v : ValueTree) →
        visits S d f v ≡ visits S e f v }
    ensures pred_visits { (S : Classes) (d e : Objects) → IsPermutation d e → Meets S e → (p : PredTree)
        (v : ValueTree) →
        pred_visits S d p v ≡ pred_visits S e p v }
{}
