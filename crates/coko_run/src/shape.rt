//! What stands at a place: its form, and how many children it has that are no constants.

ghost use Rattle.std.specs.Prelude.{◌≡◌, ◌↔◌, true};
ghost use Rattle.kola_term.specs.TermView.{term_tree};
ghost use Rattle.kola_term.specs.Parts.{sub_tree};
ghost use Rattle.kola_term.specs.Places.{children, sub_at};
ghost use Rattle.kola_match.specs.Alike.{same_kind};
ghost use Rattle.kola_match.specs.Nodes.{is_variable};
ghost use Rattle.coko_run.specs.Outcomes.{live, kids};
ghost use Rattle.coko_run.specs.Forms.{HasForm, FormAt};
ghost use Rattle.coko_run.specs.Views.{counted};

use kola_core::Path;
use kola_match::same_node;
use kola_term::{Children, Const, Fun, Pred, SubTerm, Term};

/// Whether the part is a variable.
fn is_variable(part: SubTerm) -> bool
    ensures { result ≡ is_variable (sub_tree part.entry) }
{
    match part {
        SubTerm::F(Fun::Meta(_)) | SubTerm::P(Pred::Meta(_)) | SubTerm::C(Const::Meta(_)) => true,
        _ => false,
    }
}

/// Whether both parts are of one kind.
fn same_kind(a: SubTerm, b: SubTerm) -> bool
    ensures { result ≡ same_kind (sub_tree a.entry) (sub_tree b.entry) }
{
    matches!(
        (a, b),
        (SubTerm::F(_), SubTerm::F(_))
            | (SubTerm::P(_), SubTerm::P(_))
            | (SubTerm::C(_), SubTerm::C(_))
    )
}

/// Whether the part has the form of the pattern, in which a variable stands for any term of its kind.

pub(crate) fn has_form(pattern: SubTerm, part: SubTerm) -> bool
    ensures { (result ≡ true) ↔ HasForm (sub_tree pattern.entry) (sub_tree part.entry) }
{
    if is_variable(pattern) {
        return same_kind(pattern, part);
    }
    if !same_node(pattern, part) {
        return false;
    }
    match (pattern.children(), part.children()) {
        (Children::Leaf, Children::Leaf) => true,
        (Children::One(a), Children::One(b)) => has_form(a, b),
        (Children::Two(a, c), Children::Two(b, d)) => {
            if !has_form(a, b) {
                return false;
            }
            has_form(c, d)
        }
        (Children::Three(a, c, e), Children::Three(b, d, f)) => {
            if !has_form(a, b) {
                return false;
            }
            if !has_form(c, d) {
                return false;
            }
            has_form(e, f)
        }
        _ => false,
    }
}

/// Whether the part at the path has the form of the pattern.
pub(crate) fn has_form_at(pattern: &Term, whole: &Term, path: &Path) -> bool
    ensures { (result ≡ true) ↔ FormAt (term_tree pattern.now) (sub_at (term_tree whole.now) path.now) }
{
    match whole.as_part().at(path.as_slice()) {
        Some(part) => has_form(pattern.as_part(), part),
        None => false,
    }
}

/// The number of children that are no constants; they come first.
fn live_children(part: SubTerm) -> u8
    ensures { counted result result ≡ live 1 (children (sub_tree part.entry)) }
{
    match part.children() {
        Children::Leaf => 0,
        Children::One(SubTerm::C(_)) => 0,
        Children::One(_) => 1,
        Children::Two(_, SubTerm::C(_)) => 1,
        Children::Two(_, _) => 2,
        Children::Three(_, _, _) => 3,
    }
}

/// The same of the part at the path.
pub(crate) fn live_children_at(whole: &Term, path: &Path) -> u8
    ensures { counted result result ≡ kids (term_tree whole.now) path.now }
{
    match whole.as_part().at(path.as_slice()) {
        Some(part) => live_children(part),
        None => 0,
    }
}
