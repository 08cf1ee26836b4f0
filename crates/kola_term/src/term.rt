//! Functions and predicates of the algebra, and their copies.

ghost use Rattle.std.specs.Prelude.{◌≡◌, IfOk};
ghost use Rattle.kola_term.specs.TermView.{const_tree, fun_tree, pred_tree};

use crate::constant::Const;
use kola_core::{Memory, Name};
use std::alloc::Global;

/// A function: it takes a value to a value (after KOLA's functions).
#[cycle(term)]
#[derive(Drop)]
pub enum Fun {
    /// `id`
    Id,
    /// `fst`: the first part of a pair.
    Fst,
    /// `snd`: the second part of a pair.
    Snd,
    /// `flat`: the union of a set of sets.
    Flat,
    /// `union`
    Union,
    /// `isect`: the intersection.
    Isect,
    /// `minus`: the difference.
    Minus,
    /// `.a`: an attribute of an object.
    Attr(Name),
    /// `(f o g)`: g, and then f.
    Comp(Box<Fun>, Box<Fun>),
    /// `<f, g>`: the pair of both values.
    Pair(Box<Fun>, Box<Fun>),
    /// `(f * g)`: f on the first part, g on the second.
    Times(Box<Fun>, Box<Fun>),
    /// `K(c)`: the constant, at every value.
    K(Const),
    /// `C(f, c)`: f at the pair of the constant and the value.
    C(Box<Fun>, Const),
    /// `if(p, f, g)`: f where p holds, else g.
    If(Box<Pred>, Box<Fun>, Box<Fun>),
    /// `iterate(p, f)`: f at each member that meets p.
    Iterate(Box<Pred>, Box<Fun>),
    /// `iter(p, f)`: f at the pairs of an environment and a set's members, where p holds.
    Iter(Box<Pred>, Box<Fun>),
    /// `join(p, f)`: f at each pair of members of two sets, where p holds.
    Join(Box<Pred>, Box<Fun>),
    /// `nest(f, g)`: each member of the second set, with its matches in the first.
    Nest(Box<Fun>, Box<Fun>),
    /// `unnest(f, g)`: f of each member, paired with each member of g of it.
    Unnest(Box<Fun>, Box<Fun>),
    /// A function variable of a rule.
    Meta(Name),
}

/// A predicate: it holds at a value or does not (after KOLA's predicates).
#[cycle(term)]
#[derive(Drop)]
pub enum Pred {
    /// `eq`
    Eq,
    /// `lt`: the first part comes before the second.
    Lt,
    /// `le`: the first part does not come after the second.
    Le,
    /// `in`: the first part is a member of the second.
    Member,
    /// `(p @ f)`: p at the value of f.
    At(Box<Pred>, Box<Fun>),
    /// `(p & q)`
    And(Box<Pred>, Box<Pred>),
    /// `(p | q)`
    Or(Box<Pred>, Box<Pred>),
    /// `~p`
    Not(Box<Pred>),
    /// `inv(p)`: p at the pair turned round.
    Inv(Box<Pred>),
    /// `KP(true)` or `KP(false)`.
    KP(bool),
    /// `CP(p, c)`: p at the pair of the constant and the value.
    CP(Box<Pred>, Const),
    /// `ex(p)`: p holds of the environment with some member.
    Ex(Box<Pred>),
    /// `fa(p)`: p holds of the environment with each member.
    Fa(Box<Pred>),
    /// A predicate variable of a rule.
    Meta(Name),
}

/// A term of any kind.
#[derive(Drop)]
pub enum Term {
    F(Fun),
    P(Pred),
    C(Const),
}

impl Fun {
    /// A function equal to this one.
    #[cycle(copy_term)]
    pub fn copy(&self) -> Result<Fun, Memory>
        ensures { IfOk result (λ r. fun_tree r ≡ fun_tree self.now) }
    {
        match self {
            Fun::Id => Ok(Fun::Id),
            Fun::Fst => Ok(Fun::Fst),
            Fun::Snd => Ok(Fun::Snd),
            Fun::Flat => Ok(Fun::Flat),
            Fun::Union => Ok(Fun::Union),
            Fun::Isect => Ok(Fun::Isect),
            Fun::Minus => Ok(Fun::Minus),
            Fun::Attr(name) => Ok(Fun::Attr(name.copy()?)),
            Fun::Comp(f, g) => {
                let (f, g) = copy_funs(f, g)?;
                Ok(Fun::Comp(f, g))
            }
            Fun::Pair(f, g) => {
                let (f, g) = copy_funs(f, g)?;
                Ok(Fun::Pair(f, g))
            }
            Fun::Times(f, g) => {
                let (f, g) = copy_funs(f, g)?;
                Ok(Fun::Times(f, g))
            }
            Fun::K(c) => Ok(Fun::K(c.copy()?)),
            Fun::C(f, c) => {
                let (f, c) = copy_fun_and_const(f, c)?;
                Ok(Fun::C(f, c))
            }
            Fun::If(p, f, g) => {
                let (p, f, g) = copy_choice(p, f, g)?;
                Ok(Fun::If(p, f, g))
            }
            Fun::Iterate(p, f) => {
                let (p, f) = copy_pred_and_fun(p, f)?;
                Ok(Fun::Iterate(p, f))
            }
            Fun::Iter(p, f) => {
                let (p, f) = copy_pred_and_fun(p, f)?;
                Ok(Fun::Iter(p, f))
            }
            Fun::Join(p, f) => {
                let (p, f) = copy_pred_and_fun(p, f)?;
                Ok(Fun::Join(p, f))
            }
            Fun::Nest(f, g) => {
                let (f, g) = copy_funs(f, g)?;
                Ok(Fun::Nest(f, g))
            }
            Fun::Unnest(f, g) => {
                let (f, g) = copy_funs(f, g)?;
                Ok(Fun::Unnest(f, g))
            }
            Fun::Meta(name) => Ok(Fun::Meta(name.copy()?)),
        }
    }
}

impl Pred {
    /// A predicate equal to this one.
    #[cycle(copy_term)]
    pub fn copy(&self) -> Result<Pred, Memory>
        ensures { IfOk result (λ r. pred_tree r ≡ pred_tree self.now) }
    {
        match self {
            Pred::Eq => Ok(Pred::Eq),
            Pred::Lt => Ok(Pred::Lt),
            Pred::Le => Ok(Pred::Le),
            Pred::Member => Ok(Pred::Member),
            Pred::At(p, f) => {
                let (p, f) = copy_pred_and_fun(p, f)?;
                Ok(Pred::At(p, f))
            }
            Pred::And(p, q) => {
                let (p, q) = copy_preds(p, q)?;
                Ok(Pred::And(p, q))
            }
            Pred::Or(p, q) => {
                let (p, q) = copy_preds(p, q)?;
                Ok(Pred::Or(p, q))
            }
            Pred::Not(p) => Ok(Pred::Not(copy_pred(p)?)),
            Pred::Inv(p) => Ok(Pred::Inv(copy_pred(p)?)),
            Pred::KP(b) => Ok(Pred::KP(*b)),
            Pred::CP(p, c) => {
                let (p, c) = copy_pred_and_const(p, c)?;
                Ok(Pred::CP(p, c))
            }
            Pred::Ex(p) => Ok(Pred::Ex(copy_pred(p)?)),
            Pred::Fa(p) => Ok(Pred::Fa(copy_pred(p)?)),
            Pred::Meta(name) => Ok(Pred::Meta(name.copy()?)),
        }
    }
}

/// A copy in a box of its own.
#[cycle(copy_term)]
fn copy_fun(f: &Box<Fun>) -> Result<Box<Fun>, Memory>
    ensures { IfOk result (λ b. fun_tree b.value ≡ fun_tree f.now.value) }
{
    let alloc = *Box::allocator(f);
    let copied = f.copy()?;
    let boxed = Box::new(alloc, copied)?;
    Ok(boxed)
}

/// The same of a predicate.
#[cycle(copy_term)]
fn copy_pred(p: &Box<Pred>) -> Result<Box<Pred>, Memory>
    ensures { IfOk result (λ b. pred_tree b.value ≡ pred_tree p.now.value) }
{
    let alloc = *Box::allocator(p);
    let copied = p.copy()?;
    let boxed = Box::new(alloc, copied)?;
    Ok(boxed)
}

/// Copies of two functions.
#[cycle(copy_term)]
fn copy_funs(f: &Box<Fun>, g: &Box<Fun>) -> Result<(Box<Fun>, Box<Fun>), Memory>
    ensures { IfOk result
        (λ r. (fun_tree r.0.value ≡ fun_tree f.now.value) × (fun_tree r.1.value ≡ fun_tree g.now.value)) }
{
    let f = copy_fun(f)?;
    let g = copy_fun(g)?;
    Ok((f, g))
}

/// Copies of a function and a constant.
#[cycle(copy_term)]
fn copy_fun_and_const(f: &Box<Fun>, c: &Const) -> Result<(Box<Fun>, Const), Memory>
    ensures { IfOk result (λ r. (fun_tree r.0.value ≡ fun_tree f.now.value) × (const_tree r.1 ≡ const_tree c.now)) }
{
    let f = copy_fun(f)?;
    let c = c.copy()?;
    Ok((f, c))
}

/// Copies of a predicate and a function.
#[cycle(copy_term)]
fn copy_pred_and_fun(p: &Box<Pred>, f: &Box<Fun>) -> Result<(Box<Pred>, Box<Fun>), Memory>
    ensures { IfOk result
        (λ r. (pred_tree r.0.value ≡ pred_tree p.now.value) × (fun_tree r.1.value ≡ fun_tree f.now.value)) }
{
    let p = copy_pred(p)?;
    let f = copy_fun(f)?;
    Ok((p, f))
}

/// Copies of a predicate and two functions.
#[cycle(copy_term)]
fn copy_choice(
    p: &Box<Pred>,
    f: &Box<Fun>,
    g: &Box<Fun>,
) -> Result<(Box<Pred>, Box<Fun>, Box<Fun>), Memory>
    ensures { IfOk result
        (λ r. (pred_tree r.0.value ≡ pred_tree p.now.value) × (fun_tree r.1.value ≡ fun_tree f.now.value)
        × (fun_tree r.2.value ≡ fun_tree g.now.value)) }
{
    let p = copy_pred(p)?;
    let f = copy_fun(f)?;
    let g = copy_fun(g)?;
    Ok((p, f, g))
}

/// Copies of two predicates.
#[cycle(copy_term)]
fn copy_preds(p: &Box<Pred>, q: &Box<Pred>) -> Result<(Box<Pred>, Box<Pred>), Memory>
    ensures { IfOk result
        (λ r. (pred_tree r.0.value ≡ pred_tree p.now.value) × (pred_tree r.1.value ≡ pred_tree q.now.value)) }
{
    let p = copy_pred(p)?;
    let q = copy_pred(q)?;
    Ok((p, q))
}

/// Copies of a predicate and a constant.
#[cycle(copy_term)]
fn copy_pred_and_const(p: &Box<Pred>, c: &Const) -> Result<(Box<Pred>, Const), Memory>
    ensures { IfOk result (λ r. (pred_tree r.0.value ≡ pred_tree p.now.value) × (const_tree r.1 ≡ const_tree c.now)) }
{
    let p = copy_pred(p)?;
    let c = c.copy()?;
    Ok((p, c))
}

/// A copy of a function in a box.
pub(crate) fn copied_fun(alloc: Global, f: &Fun) -> Result<Box<Fun>, Memory>
    ensures { IfOk result (λ b. fun_tree b.value ≡ fun_tree f.now) }
{
    let copied = f.copy()?;
    let boxed = Box::new(alloc, copied)?;
    Ok(boxed)
}

/// A copy of a predicate in a box.
pub(crate) fn copied_pred(alloc: Global, p: &Pred) -> Result<Box<Pred>, Memory>
    ensures { IfOk result (λ b. pred_tree b.value ≡ pred_tree p.now) }
{
    let copied = p.copy()?;
    let boxed = Box::new(alloc, copied)?;
    Ok(boxed)
}
