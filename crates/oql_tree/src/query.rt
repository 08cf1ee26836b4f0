//! The trees of queries.
ghost use Rattle.std.specs.Prelude.{◌≡◌, [], ◌∷◌, ◌++◌, map, IfOk, OnOk, OnErr, length};
ghost use Rattle.oql_tree.specs.QueryViews.{query_tree, first_place, first_set_place, link_entry, set_link_entry, named_entry};

use kola_core::{Items, Memory, Name, Text};
use std::alloc::Global;
use std::marker::Model;

/// How two expressions are compared.
#[derive(Clone, Copy, Debug, PartialEq, Eq)]
pub enum Sign {
    /// `=`
    Eq,
    /// `!=`
    Ne,
    /// `<`
    Lt,
    /// `<=`
    Le,
    /// `>`
    Gt,
    /// `>=`
    Ge,
    /// `in`
    Member,
}

/// A literal of a query.
#[derive(Drop)]
pub enum Lit {
    Int(i64),
    Str(Text),
    Bool(bool),
}

/// The literals of a set, each with its place.
pub type LitList = Items<(Lit, usize)>;

/// The labels of a path, each with its place.
pub type Labels = Items<(Name, usize)>;

/// A whole query. Its parentheses, a semicolon at its end, the case of its words and the way its labels and ranges are written are not
/// kept.
pub type Query = Expr;

/// An expression of a query.
#[cycle(query)]
#[derive(Drop)]
pub struct Expr {
    /// Where its main token begins, in bytes from 0. That of a select, a struct or a set is its first word, that of a chain its first
    /// sign, and that of a path its first label.
    pub at: usize,
    pub form: Form,
}

/// The form of an expression, with its parts.
#[cycle(query)]
#[derive(Drop)]
pub enum Form {
    Name(Name),
    Literal(Lit),
    SetOf(LitList),
    Path(BoxedExpr, Labels),
    Struct(StructList),
    Flatten(BoxedExpr),
    /// `exists(e)`
    SomeMember(BoxedExpr),
    Not(BoxedExpr),
    /// The first operand, and the others.
    Intersect(BoxedExpr, Chain),
    And(BoxedExpr, Chain),
    Or(BoxedExpr, Chain),
    UnionExcept(BoxedExpr, SetChain),
    Compare(Sign, BoxedExpr, BoxedExpr),
    /// The variable, the range, and the body.
    Exists(Name, BoxedExpr, BoxedExpr),
    ForAll(Name, BoxedExpr, BoxedExpr),
    /// The head, the ranges, and the place of `where` with the condition, if there is one.
    Select(BoxedExpr, Ranges, Option<(usize, BoxedExpr)>),
}

/// A boxed expression.
#[cycle(query)]
#[derive(Drop)]
pub struct BoxedExpr {
    inner: Box<Expr>,
}

/// The operands of a chain behind its first one, each with the place of the sign before it.
#[cycle(query)]
#[derive(Drop)]
pub struct Chain {
    entries: Vec<(usize, Expr)>,
}

/// The operands of `union` and `except` behind the first one, each with the place of the word before it, and true for `except`.
#[cycle(query)]
#[derive(Drop)]
pub struct SetChain {
    entries: Vec<(usize, bool, Expr)>,
}

/// Expressions that are named, each with its name and the name's place.
#[cycle(query)]
#[derive(Drop)]
pub struct NamedExprs {
    entries: Vec<(Name, usize, Expr)>,
}

/// The expressions of a struct by their labels.
pub type StructList = NamedExprs;

/// The ranges of a select by their variables.
pub type Ranges = NamedExprs;

impl Model for BoxedExpr {
    ghost use Rattle.oql_tree.specs.QueryTrees.{QueryTree};
    ghost use Rattle.oql_tree.specs.Models.QueryCode.{query_code};

    ghost Value = { QueryTree };

    ghost coded = { query_code };

    ghost use Rattle.oql_tree.specs.QueryViews.{query_tree};

    ghost view = { λ a. query_tree a.inner.value };

    ghost use Rattle.oql_tree.specs.Models.Weights.{weight};

    ghost size = { weight };

    ghost use Rattle.oql_tree.specs.Models.Falls.{query_deep_le};
    ghost use Rattle.std.proofs.Common.{arith};

    ghost size_decreases = { λ a h. omega (arith, query_deep_le a.inner.value) };
}

impl Model for Chain {
    ghost use Rattle.std.specs.Prelude.{List, ℕ};
    ghost use Rattle.std.specs.Coded.{coded_list, coded×, coded_ℕ};
    ghost use Rattle.oql_tree.specs.QueryTrees.{QueryTree};
    ghost use Rattle.oql_tree.specs.Models.QueryCode.{query_code};

    ghost Value = { List (ℕ × QueryTree) };

    ghost coded = { coded_list (coded× coded_ℕ query_code) };

    ghost use Rattle.std.specs.Prelude.{map};
    ghost use Rattle.oql_tree.specs.QueryViews.{link_entry};

    ghost view = { λ a. map link_entry a.entries.items };

    ghost use Rattle.oql_tree.specs.Models.Weights.{link_entries_weight};

    ghost size = { link_entries_weight };

    ghost use Rattle.oql_tree.specs.Models.Falls.{link_entries_le};
    ghost use Rattle.std.proofs.Common.{arith};

    ghost size_decreases = { λ a h. omega (arith, link_entries_le a.entries.items) };
}

impl Model for SetChain {
    ghost use Rattle.std.specs.Prelude.{List, ℕ, Bool};
    ghost use Rattle.std.specs.Coded.{coded_list};
    ghost use Rattle.oql_tree.specs.QueryTrees.{QueryTree};
    ghost use Rattle.oql_tree.specs.Models.QueryCode.{set_entry_code};

    ghost Value = { List (ℕ × Bool × QueryTree) };

    ghost coded = { coded_list set_entry_code };

    ghost use Rattle.std.specs.Prelude.{map};
    ghost use Rattle.oql_tree.specs.QueryViews.{set_link_entry};

    ghost view = { λ a. map set_link_entry a.entries.items };

    ghost use Rattle.oql_tree.specs.Models.Weights.{set_entries_weight};

    ghost size = { set_entries_weight };

    ghost use Rattle.oql_tree.specs.Models.Falls.{set_entries_le};
    ghost use Rattle.std.proofs.Common.{arith};

    ghost size_decreases = { λ a h. omega (arith, set_entries_le a.entries.items) };
}

impl Model for NamedExprs {
    ghost use Rattle.std.specs.Prelude.{List, ℕ};
    ghost use Rattle.std.specs.Coded.{coded_list};
    ghost use Rattle.oql_tree.specs.QueryTrees.{QueryTree};
    ghost use Rattle.oql_tree.specs.Models.QueryCode.{named_entry_code};

    ghost Value = { List (List ℕ × ℕ × QueryTree) };

    ghost coded = { coded_list named_entry_code };

    ghost use Rattle.std.specs.Prelude.{map};
    ghost use Rattle.oql_tree.specs.QueryViews.{named_entry};

    ghost view = { λ a. map named_entry a.entries.items };

    ghost use Rattle.oql_tree.specs.Models.Weights.{named_entries_weight};

    ghost size = { named_entries_weight };

    ghost use Rattle.oql_tree.specs.Models.Falls.{named_entries_le};
    ghost use Rattle.std.proofs.Common.{arith};

    ghost size_decreases = { λ a h. omega (arith, named_entries_le a.entries.items) };
}

impl BoxedExpr {
    /// An expression in a box.
    pub fn new(alloc: Global, e: Expr) -> Result<BoxedExpr, Memory>
        ensures { IfOk result (λ b. b ≡ query_tree e) }
    {
        let inner = Box::new(alloc, e)?;
        Ok(BoxedExpr { inner })
    }

    /// The expression in the box.
    pub fn get(&self) -> &Expr
        ensures { query_tree result.now ≡ self.now }
    {
        &self.inner
    }

    /// The expression, out of its box.
    pub fn into_inner(self) -> Expr
        ensures { query_tree result ≡ self }
    {
        Box::into_inner(self.inner)
    }

    /// A copy of the expression, in a box.
    #[cycle(copy)]
    pub fn copy(&self, alloc: Global) -> Result<BoxedExpr, Memory>
        ensures { IfOk result (λ b. b ≡ self.now) }
    {
        let copied = self.get().copy(alloc)?;
        BoxedExpr::new(alloc, copied)
    }
}

impl Chain {
    /// No operands.
    pub fn new(alloc: Global) -> Chain
        ensures { result ≡ [] }
    {
        Chain {
            entries: Vec::new(alloc),
        }
    }

    /// The operands in their order.
    pub fn as_slice(&self) -> &[(usize, Expr)]
        ensures { map link_entry result.now ≡ self.now }
    {
        self.entries.as_slice()
    }

    /// The place of the first sign, or `None` where there is no operand.
    pub fn first_place(&self) -> Option<usize>
        ensures { result ≡ first_place self.now }
    {
        let (at, _) = self.entries.first()?;
        Some(*at)
    }

    /// Adds an operand at the end. Where memory is wanted, the list stays as it was and the operand is dropped.
    pub fn push(&mut self, at: usize, e: BoxedExpr) -> Result<(), Memory>
        ensures ok { OnOk result (self.new ≡ self.old ++ (at, e) ∷ []) }
        ensures err { OnErr result (self.new ≡ self.old) }
    {
        self.entries.push((at, e.into_inner()))?;
        Ok(())
    }

    /// A copy of the list.
    #[cycle(copy)]
    pub fn copy(&self, alloc: Global) -> Result<Chain, Memory>
        ensures { IfOk result (λ c. c ≡ self.now) }
    {
        let mut entries = Vec::new(alloc);
        for (at, e) in &self.entries {
            entries.push((*at, e.copy(alloc)?))?;
        }
        Ok(Chain { entries })
    }
}

impl SetChain {
    /// No operands.
    pub fn new(alloc: Global) -> SetChain
        ensures { result ≡ [] }
    {
        SetChain {
            entries: Vec::new(alloc),
        }
    }

    /// The operands in their order.
    pub fn as_slice(&self) -> &[(usize, bool, Expr)]
        ensures { map set_link_entry result.now ≡ self.now }
    {
        self.entries.as_slice()
    }

    /// The place of the first word, or `None` where there is no operand.
    pub fn first_place(&self) -> Option<usize>
        ensures { result ≡ first_set_place self.now }
    {
        let (at, _, _) = self.entries.first()?;
        Some(*at)
    }

    /// Adds an operand at the end; `except` says which of the two words stands before it. Where memory is wanted, the list stays as it
    /// was and the operand is dropped.
    pub fn push(&mut self, at: usize, except: bool, e: BoxedExpr) -> Result<(), Memory>
        ensures ok { OnOk result (self.new ≡ self.old ++ (at, except, e) ∷ []) }
        ensures err { OnErr result (self.new ≡ self.old) }
    {
        self.entries.push((at, except, e.into_inner()))?;
        Ok(())
    }

    /// A copy of the list.
    #[cycle(copy)]
    pub fn copy(&self, alloc: Global) -> Result<SetChain, Memory>
        ensures { IfOk result (λ c. c ≡ self.now) }
    {
        let mut entries = Vec::new(alloc);
        for (at, except, e) in &self.entries {
            entries.push((*at, *except, e.copy(alloc)?))?;
        }
        Ok(SetChain { entries })
    }
}

impl NamedExprs {
    /// No expressions.
    pub fn new(alloc: Global) -> NamedExprs
        ensures { result ≡ [] }
    {
        NamedExprs {
            entries: Vec::new(alloc),
        }
    }

    /// The expressions with their names, in their order.
    pub fn as_slice(&self) -> &[(Name, usize, Expr)]
        ensures { map named_entry result.now ≡ self.now }
    {
        self.entries.as_slice()
    }

    /// Adds an expression at the end. Where memory is wanted, the list stays as it was and the expression is dropped.
    pub fn push(&mut self, name: Name, at: usize, e: BoxedExpr) -> Result<(), Memory>
        ensures ok { OnOk result (self.new ≡ self.old ++ (name, at, e) ∷ []) }
        ensures err { OnErr result (self.new ≡ self.old) }
    {
        self.entries.push((name, at, e.into_inner()))?;
        Ok(())
    }

    /// A copy of the list.
    #[cycle(copy)]
    pub fn copy(&self, alloc: Global) -> Result<NamedExprs, Memory>
        ensures { IfOk result (λ c. c ≡ self.now) }
    {
        let mut entries = Vec::new(alloc);
        for (name, at, e) in &self.entries {
            entries.push((name.copy()?, *at, e.copy(alloc)?))?;
        }
        Ok(NamedExprs { entries })
    }
}

impl Lit {
    /// A literal equal to it.
    pub fn copy(&self) -> Result<Lit, Memory>
        ensures { IfOk result (λ l. l ≡ self.now) }
    {
        match self {
            Lit::Int(n) => Ok(Lit::Int(*n)),
            Lit::Str(text) => Ok(Lit::Str(text.copy()?)),
            Lit::Bool(b) => Ok(Lit::Bool(*b)),
        }
    }
}

fn copy_literals(alloc: Global, literals: &LitList) -> Result<LitList, Memory>
    ensures { IfOk result (λ ls. ls ≡ literals.now) }
{
    let mut entries = Vec::new(alloc);
    for (literal, at) in literals.as_slice() {
        entries.push((literal.copy()?, *at))?;
    }
    Ok(Items::from_vec(entries))
}

fn copy_labels(alloc: Global, labels: &Labels) -> Result<Labels, Memory>
    ensures { IfOk result (λ ls. ls ≡ labels.now) }
{
    let mut entries = Vec::new(alloc);
    for (label, at) in labels.as_slice() {
        entries.push((label.copy()?, *at))?;
    }
    Ok(Items::from_vec(entries))
}

/// An expression of the form at the place.
fn placed(at: usize, form: Form) -> Result<Expr, Memory>
    ensures { IfOk result (λ e. e ≡ record { at = at; form = form }) }
{
    Ok(Expr { at, form })
}

#[cycle(copy)]
fn copy_condition(
    alloc: Global,
    condition: &Option<(usize, BoxedExpr)>,
) -> Result<Option<(usize, BoxedExpr)>, Memory>
    ensures { IfOk result (λ c. c ≡ condition.now) }
{
    match condition {
        Some((at, e)) => Ok(Some((*at, e.copy(alloc)?))),
        None => Ok(None),
    }
}

impl Expr {
    /// A query equal to it.
    #[cycle(copy)]
    pub fn copy(&self, alloc: Global) -> Result<Expr, Memory>
        ensures { IfOk result (λ e. query_tree e ≡ query_tree self.now) }
    {
        let at = self.at;
        match &self.form {
            Form::Name(name) => placed(at, Form::Name(name.copy()?)),
            Form::Literal(literal) => placed(at, Form::Literal(literal.copy()?)),
            Form::SetOf(literals) => placed(at, Form::SetOf(copy_literals(alloc, literals)?)),
            Form::Path(e, labels) => placed(
                at,
                Form::Path(e.copy(alloc)?, copy_labels(alloc, labels)?),
            ),
            Form::Struct(fields) => placed(at, Form::Struct(fields.copy(alloc)?)),
            Form::Flatten(e) => placed(at, Form::Flatten(e.copy(alloc)?)),
            Form::SomeMember(e) => placed(at, Form::SomeMember(e.copy(alloc)?)),
            Form::Not(e) => placed(at, Form::Not(e.copy(alloc)?)),
            Form::Intersect(e, links) => placed(
                at,
                Form::Intersect(e.copy(alloc)?, links.copy(alloc)?),
            ),
            Form::And(e, links) => placed(at, Form::And(e.copy(alloc)?, links.copy(alloc)?)),
            Form::Or(e, links) => placed(at, Form::Or(e.copy(alloc)?, links.copy(alloc)?)),
            Form::UnionExcept(e, links) => placed(
                at,
                Form::UnionExcept(e.copy(alloc)?, links.copy(alloc)?),
            ),
            Form::Compare(sign, a, b) => placed(
                at,
                Form::Compare(*sign, a.copy(alloc)?, b.copy(alloc)?),
            ),
            Form::Exists(x, range, body) => placed(
                at,
                Form::Exists(x.copy()?, range.copy(alloc)?, body.copy(alloc)?),
            ),
            Form::ForAll(x, range, body) => placed(
                at,
                Form::ForAll(x.copy()?, range.copy(alloc)?, body.copy(alloc)?),
            ),
            Form::Select(head, ranges, condition) => placed(
                at,
                Form::Select(
                    head.copy(alloc)?,
                    ranges.copy(alloc)?,
                    copy_condition(alloc, condition)?,
                ),
            ),
        }
    }
}
