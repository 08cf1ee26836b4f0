//! Which blocks a chosen one reaches.

ghost use Rattle.std.specs.Prelude.{◌≡◌, [], map, cond, IfOk, OnOk};
ghost use Rattle.kola_core.specs.NameLists.{is_listed};
ghost use Rattle.coko_block.specs.Statements.{of_stmts, of_arms};
ghost use Rattle.coko_block.specs.StmtViews.{stmt_tree, arm_entry, block_tree};
ghost use Rattle.coko_plan.specs.Naming.{names_in, names_among, names_in_arms, forward, uses};
ghost use Rattle.coko_plan.specs.Working.Seen.{AddsNames};
ghost use Rattle.coko_plan.specs.Working.Marks.{marks};

use crate::firing::add_name;
use coko_block::{Block, Stmt};
use kola_core::{Memory, Name, NameTable, Path};
use std::alloc::Global;

/// Adds the names by which a statement may run blocks.
#[cycle(want)]
fn want(s: &Stmt, wanted: &mut NameTable) -> Result<(), Memory>
    ensures { OnOk result (AddsNames wanted.old wanted.new (forward (names_in (stmt_tree s.now)))) }
{
    match s {
        Stmt::Fire(name, false) => add_name(wanted, name),
        Stmt::Seq(parts) | Stmt::Then(parts) | Stmt::Else(parts) => {
            want_all(parts.as_slice(), wanted)
        }
        Stmt::Bu(s) | Stmt::Td(s) | Stmt::Repeat(s) => want(s.get(), wanted),
        Stmt::Given(_, arms) => want_in_arms(arms.as_slice(), wanted),
        Stmt::Fire(_, true) | Stmt::Skip | Stmt::Fail => Ok(()),
    }
}

/// The same of statements.
#[cycle(want)]
fn want_all(parts: &[Stmt], wanted: &mut NameTable) -> Result<(), Memory>
    ensures { OnOk result (AddsNames wanted.old wanted.new
        (forward (names_among (of_stmts (map stmt_tree parts.now))))) }
{
    for part in parts {
        want(part, wanted)?;
    }
    Ok(())
}

/// The same of arms.
#[cycle(want)]
fn want_in_arms(arms: &[(Path, Stmt)], wanted: &mut NameTable) -> Result<(), Memory>
    ensures { OnOk result (AddsNames wanted.old wanted.new
        (forward (names_in_arms (of_arms (map arm_entry arms.now))))) }
{
    for (_, s) in arms {
        want(s, wanted)?;
    }
    Ok(())
}

/// Whether a block is wanted. Where it is, the names by which it may run others are wanted too.
fn mark(block: &Block, wanted: &mut NameTable) -> Result<bool, Memory>
    ensures is_wanted { IfOk result (λ b. b ≡ is_listed block.now.name wanted.old) }
    ensures adds { IfOk result (λ b. AddsNames wanted.old wanted.new (cond b (uses (block_tree block.now)) [])) }
{
    if !wanted.holds(block.name.as_text()) {
        return Ok(false);
    }
    want(&block.stmt, wanted)?;
    Ok(true)
}

/// Of each block, whether the chosen one reaches it.
pub(crate) fn marks(alloc: Global, blocks: &[Block], chosen: &Name) -> Result<Vec<bool>, Memory>
    ensures { IfOk result (λ m. m.items ≡ marks chosen.now (map block_tree blocks.now)) }
{
    let mut wanted = NameTable::new(alloc);
    add_name(&mut wanted, chosen)?;
    let mut marks = Vec::new(alloc);
    let mut left = blocks.len();
    while left > 0 {
        left -= 1;
        let reached = mark(&blocks[left], &mut wanted)?;
        marks.push(reached)?;
    }
    marks.reverse();
    Ok(marks)
}
