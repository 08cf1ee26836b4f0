//! What can be copied, where memory is found.
ghost use Rattle.std.specs.Prelude.{◌≡◌, [], ◌∷◌, ◌++◌, List, IfOk, refl, map};
ghost use Rattle.std.proofs.lemmas.List.{map_push};

use crate::Memory;

/// What can be copied. `same` says what a copy has in common with its original, and `same_all` says it of a list's entries:
/// both are equality, or equality of plain trees for a type that holds boxes of itself.
pub trait Duplicate: Drop {
    ghost same: { Self → Self → Type 0 };

    ghost same_all: { List Self → List Self → Type 0 };

    /// A copy of it.
    fn copy(&self) -> Result<Self, Memory>
        ensures { IfOk result (λ c. same c self.now) };

    ghost none: { same_all [] [] };

    ghost more: { (xs ys : List Self) (x y : Self) → same_all xs ys → same x y
        → same_all (xs ++ x ∷ []) (ys ++ y ∷ []) };
}

impl Duplicate for u8 {
    ghost same = { λ a b. a ≡ b };

    ghost same_all = { λ a b. a ≡ b };

    ghost none = { refl };

    ghost more = { λ xs ys x y p q i. p i ++ q i ∷ [] };

    fn copy(&self) -> Result<u8, Memory> {
        Ok(*self)
    }
}

impl<A: Duplicate, B: Duplicate> Duplicate for (A, B) {
    ghost same = { λ p q. A.same p.0 q.0 × B.same p.1 q.1 };

    ghost same_all = { λ ps qs. A.same_all (map (λ p. p.0) ps) (map (λ q. q.0) qs)
        × B.same_all (map (λ p. p.1) ps) (map (λ q. q.1) qs) };

    ghost none = { (A.none, B.none) };

    ghost more = { λ xs ys x y p q. Prim.simp map_push (
      A.more (map (λ e. e.0) xs) (map (λ e. e.0) ys) x.0 y.0 p.0 q.0,
      B.more (map (λ e. e.1) xs) (map (λ e. e.1) ys) x.1 y.1 p.1 q.1,
    ) };

    fn copy(&self) -> Result<(A, B), Memory> {
        Ok((self.0.copy()?, self.1.copy()?))
    }
}
