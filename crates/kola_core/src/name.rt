//! Names, which contracts see as their bytes, and lists of names and of numbers.
ghost use Rattle.std.specs.Prelude.{◌≡◌, [], ◌∷◌, ◌++◌, refl, string_bytes, IfOk};
ghost use Rattle.std.specs.Str.{bytes_eq, IsUtf8};
ghost use Rattle.std.specs.Ordering.{nat_cmp};
ghost use Rattle.std.specs.Cmp.Lexicographic.{slice_cmp};

use crate::{Duplicate, Items, Memory};
use std::alloc::Global;
use std::cmp::Ordering;
use std::marker::Model;
use std::rc::RcStr;

/// A name: of a class, an attribute, a variable, a rule or a block. It is always UTF-8.
#[derive(Debug, Drop)]
pub struct Name {
    text: RcStr,
}

impl Model for Name {
    ghost use Rattle.std.specs.Prelude.{List, ℕ};
    ghost use Rattle.std.specs.Rc.{rc_str_bytes};

    ghost Value = { List ℕ };

    ghost view = { λ a. rc_str_bytes a.text };
}

impl Name {
    /// The name that a `String` holds.
    pub fn from_string(text: String) -> Result<Name, Memory>
        ensures { IfOk result (λ n. n ≡ string_bytes text) }
    {
        let text = RcStr::from_string(text)?;
        Ok(Name { text })
    }

    /// A `String` of the same bytes.
    pub fn to_string(&self, alloc: Global) -> Result<String, Memory>
        ensures { IfOk result (λ s. string_bytes s ≡ self.now) }
    {
        String::from_str(alloc, self.as_text())
    }

    /// The name that a text writes.
    pub fn from_text(alloc: Global, text: &str) -> Result<Name, Memory>
        ensures { IfOk result (λ n. n ≡ text.now) }
    {
        let text = RcStr::from_str(alloc, text)?;
        Ok(Name { text })
    }

    /// The name as text.
    pub fn as_text(&self) -> &str
        ensures text { result.now ≡ self.now }
        ensures utf8 { IsUtf8 self.now }
    {
        self.text.as_str()
    }

    /// A name equal to it, which shares its bytes: none is copied.
    pub fn copy(&self) -> Result<Name, Memory>
        ensures { IfOk result (λ n. n ≡ self.now) }
    {
        let text = self.text.clone()?;
        Ok(Name { text })
    }

    /// The order of two names by their bytes.
    pub fn cmp_bytes(&self, other: &Name) -> Ordering
        ensures { result ≡ slice_cmp nat_cmp self.now other.now }
    {
        self.text.as_str().cmp(other.text.as_str())
    }

    /// Whether two names have the same bytes.
    pub fn is(&self, other: &Name) -> bool
        ensures { result ≡ bytes_eq self.now other.now }
    {
        self.text.as_str() == other.text.as_str()
    }
}

/// A place in a term: the numbers of children, counted from 1, from the root downwards.
pub type Path = Items<u8>;

/// A list of names.
pub type Names = Items<Name>;

impl Duplicate for Name {
    ghost same = { λ a b. a ≡ b };

    ghost same_all = { λ a b. a ≡ b };

    ghost none = { refl };

    ghost more = { λ xs ys x y p q i. p i ++ q i ∷ [] };

    fn copy(&self) -> Result<Name, Memory> {
        self.copy()
    }
}

impl Duplicate for Names {
    ghost same = { λ a b. a ≡ b };

    ghost same_all = { λ a b. a ≡ b };

    ghost none = { refl };

    ghost more = { λ xs ys x y p q i. p i ++ q i ∷ [] };

    fn copy(&self) -> Result<Names, Memory> {
        self.copy()
    }
}
