//! The trees of statements, and named blocks.

ghost use Rattle.std.specs.Prelude.{◌≡◌, [], ◌∷◌, ◌++◌, map, IfOk, OnOk, OnErr, length};
ghost use Rattle.coko_block.specs.StmtViews.{stmt_tree, arm_entry};

use kola_core::{Items, Memory, Name, Path};
use kola_term::Term;
use std::alloc::Global;
use std::marker::Model;

/// A statement of a rule block (after COKO's).
#[cycle(stmt)]
#[derive(Drop)]
pub enum Stmt {
    /// A rule, from right to left where it is reversed; or an earlier block.
    Fire(Name, bool),
    /// `SKIP`: it succeeds.
    Skip,
    /// `FAIL`: it fails.
    Fail,
    /// `S ; S`: one statement behind the other.
    Seq(Stmts),
    /// `S -> S`: each only where the one before it succeeded.
    Then(Stmts),
    /// `S || S`: each only where the one before it failed.
    Else(Stmts),
    /// `BU S`: at every part, the parts of a part before it.
    Bu(BoxedStmt),
    /// `TD S`: at every part, a part before its parts.
    Td(BoxedStmt),
    /// `REPEAT S`: again until it fails.
    Repeat(BoxedStmt),
    /// `GIVEN P DO v : S END`: where the pattern has the form of the part, each statement at its variable's place.
    Given(Term, Arms),
}

/// A boxed statement.
#[cycle(stmt)]
#[derive(Drop)]
pub struct BoxedStmt {
    inner: Box<Stmt>,
}

/// Statements in their order.
#[cycle(stmt)]
#[derive(Drop)]
pub struct Stmts {
    entries: Vec<Stmt>,
}

/// The arms of a `GIVEN`: statements in their order, each with the path from the pattern's root to its variable.
#[cycle(stmt)]
#[derive(Drop)]
pub struct Arms {
    entries: Vec<(Path, Stmt)>,
}

impl Model for BoxedStmt {
    ghost use Rattle.coko_block.specs.Statements.{StmtTree};
    ghost use Rattle.coko_block.specs.Models.StmtCode.{stmt_code};

    ghost Value = { StmtTree };

    ghost coded = { stmt_code };

    ghost use Rattle.coko_block.specs.StmtViews.{stmt_tree};

    ghost view = { λ a. stmt_tree a.inner.value };

    ghost use Rattle.coko_block.specs.Models.Weights.{weight};

    ghost size = { weight };

    ghost use Rattle.coko_block.specs.Models.Falls.{stmt_deep_le};
    ghost use Rattle.std.proofs.Common.{arith};

    ghost size_decreases = { λ a h. omega (arith, stmt_deep_le a.inner.value) };
}

impl Model for Stmts {
    ghost use Rattle.std.specs.Prelude.{List};
    ghost use Rattle.std.specs.Coded.{coded_list};
    ghost use Rattle.coko_block.specs.Statements.{StmtTree};
    ghost use Rattle.coko_block.specs.Models.StmtCode.{stmt_code};

    ghost Value = { List StmtTree };

    ghost coded = { coded_list stmt_code };

    ghost use Rattle.std.specs.Prelude.{map};
    ghost use Rattle.coko_block.specs.StmtViews.{stmt_tree};

    ghost view = { λ a. map stmt_tree a.entries.items };

    ghost use Rattle.coko_block.specs.Models.Weights.{entries_weight};

    ghost size = { entries_weight };

    ghost use Rattle.coko_block.specs.Models.Falls.{entries_le};
    ghost use Rattle.std.proofs.Common.{arith};

    ghost size_decreases = { λ a h. omega (arith, entries_le a.entries.items) };
}

impl Model for Arms {
    ghost use Rattle.std.specs.Prelude.{List, ℕ};
    ghost use Rattle.std.specs.Coded.{coded_list};
    ghost use Rattle.coko_block.specs.Statements.{StmtTree};
    ghost use Rattle.coko_block.specs.Models.StmtCode.{arm_code};

    ghost Value = { List (List ℕ × StmtTree) };

    ghost coded = { coded_list arm_code };

    ghost use Rattle.std.specs.Prelude.{map};
    ghost use Rattle.coko_block.specs.StmtViews.{arm_entry};

    ghost view = { λ a. map arm_entry a.entries.items };

    ghost use Rattle.coko_block.specs.Models.Weights.{arm_entries_weight};

    ghost size = { arm_entries_weight };

    ghost use Rattle.coko_block.specs.Models.Falls.{arm_entries_le};
    ghost use Rattle.std.proofs.Common.{arith};

    ghost size_decreases = { λ a h. omega (arith, arm_entries_le a.entries.items) };
}

impl BoxedStmt {
    /// A statement in a box.
    pub fn new(alloc: Global, s: Stmt) -> Result<BoxedStmt, Memory>
        ensures { IfOk result (λ b. b ≡ stmt_tree s) }
    {
        let inner = Box::new(alloc, s)?;
        Ok(BoxedStmt { inner })
    }

    /// The statement in the box.
    pub fn get(&self) -> &Stmt
        ensures { stmt_tree result.now ≡ self.now }
    {
        &self.inner
    }

    /// The statement, out of its box.
    pub fn into_inner(self) -> Stmt
        ensures { stmt_tree result ≡ self }
    {
        Box::into_inner(self.inner)
    }
}

impl Stmts {
    /// No statements.
    pub fn new(alloc: Global) -> Stmts
        ensures { result ≡ [] }
    {
        Stmts {
            entries: Vec::new(alloc),
        }
    }

    /// The statements in their order.
    pub fn as_slice(&self) -> &[Stmt]
        ensures { map stmt_tree result.now ≡ self.now }
    {
        self.entries.as_slice()
    }

    /// Adds a statement at the end. Where memory is wanted, the list stays as it was and the statement is dropped.
    pub fn push(&mut self, s: BoxedStmt) -> Result<(), Memory>
        ensures ok { OnOk result (self.new ≡ self.old ++ s ∷ []) }
        ensures err { OnErr result (self.new ≡ self.old) }
    {
        self.entries.push(s.into_inner())?;
        Ok(())
    }
}

impl Arms {
    /// No arms.
    pub fn new(alloc: Global) -> Arms
        ensures { result ≡ [] }
    {
        Arms {
            entries: Vec::new(alloc),
        }
    }

    /// The arms in their order, each with the path to its variable.
    pub fn as_slice(&self) -> &[(Path, Stmt)]
        ensures { map arm_entry result.now ≡ self.now }
    {
        self.entries.as_slice()
    }

    /// Adds an arm at the end. Where memory is wanted, the list stays as it was and the arm is dropped.
    pub fn push(&mut self, path: Path, s: BoxedStmt) -> Result<(), Memory>
        ensures ok { OnOk result (self.new ≡ self.old ++ (path, s) ∷ []) }
        ensures err { OnErr result (self.new ≡ self.old) }
    {
        self.entries.push((path, s.into_inner()))?;
        Ok(())
    }
}

/// A statement with a name.
#[derive(Drop)]
pub struct Block {
    /// The block's name.
    pub name: Name,
    /// What it does.
    pub stmt: Stmt,
}

/// Blocks in their order.
pub type Blocks = Items<Block>;
