//! Where a variable stands in a term.

ghost use Rattle.std.specs.Prelude.{◌≡◌, ◌↔◌, IfOk, true};
ghost use Rattle.kola_term.specs.ContextView.{meta_tree};
ghost use Rattle.kola_term.specs.Parts.{sub_tree};
ghost use Rattle.kola_match.specs.Occurring.{variable};
ghost use Rattle.kola_match.specs.Leading.{Leads, LeadsBy};

use kola_core::{Memory, Name};
use kola_term::{Children, Const, Fun, MetaTy, Pred, SubTerm};

/// Whether the part is the variable of the name, of the kind that is declared.
fn is_variable(part: SubTerm, name: &Name, meta: &MetaTy) -> bool
    ensures { (result ≡ true) ↔ (sub_tree part.entry ≡ variable name.now (meta_tree meta.now)) }
{
    match (part, meta) {
        (SubTerm::F(Fun::Meta(known)), MetaTy::Fun(_, _))
        | (SubTerm::P(Pred::Meta(known)), MetaTy::Pred(_))
        | (SubTerm::C(Const::Meta(known)), MetaTy::Const(_)) => known.is(name),
        _ => false,
    }
}

/// Whether the variable stands in the part. The path to a place where it does is put behind `path`, which else stays as
/// it was.
#[cycle(find)]
pub(crate) fn find(
    part: SubTerm,
    name: &Name,
    meta: &MetaTy,
    path: &mut Vec<u8>,
) -> Result<bool, Memory>
    ensures { IfOk result
        (λ b. Leads b (sub_tree part.entry) (variable name.now (meta_tree meta.now)) path.old.items path.new.items) }
{
    if is_variable(part, name, meta) {
        return Ok(true);
    }
    match part.children() {
        Children::Leaf => Ok(false),
        Children::One(a) => find_child(a, 1, name, meta, path),
        Children::Two(a, b) => {
            if find_child(a, 1, name, meta, path)? {
                return Ok(true);
            }
            find_child(b, 2, name, meta, path)
        }
        Children::Three(a, b, c) => {
            if find_child(a, 1, name, meta, path)? {
                return Ok(true);
            }
            if find_child(b, 2, name, meta, path)? {
                return Ok(true);
            }
            find_child(c, 3, name, meta, path)
        }
    }
}

/// The same for the child with the number.
#[cycle(find)]
fn find_child(
    child: SubTerm,
    n: u8,
    name: &Name,
    meta: &MetaTy,
    path: &mut Vec<u8>,
) -> Result<bool, Memory>
    ensures { IfOk result
        (λ b. LeadsBy n b (sub_tree child.entry) (variable name.now
        (meta_tree meta.now)) path.old.items path.new.items) }
{
    path.push(n)?;
    if find(child, name, meta, path)? {
        return Ok(true);
    }
    let _n = path.pop();
    Ok(false)
}
