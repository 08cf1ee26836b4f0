//! The plan of a block.

ghost use Rattle.std.specs.Prelude.{◌≡◌, [], true, map, slice_get, IfOk, IfErr};
ghost use Rattle.kola_schema.specs.Schemas.{are_distinct};
ghost use Rattle.kola_rule.specs.RuleViews.{rule_tree};
ghost use Rattle.coko_block.specs.StmtViews.{stmt_tree, block_tree};
ghost use Rattle.coko_block.specs.WellFormed.{BlocksOk, block_names};
ghost use Rattle.coko_plan.specs.EntryViews.{entries_of, start_of};
ghost use Rattle.coko_plan.specs.Faults.{fault_of};
ghost use Rattle.coko_plan.specs.Listing.{or_else};
ghost use Rattle.coko_plan.specs.Compiling.{IsPlanOf, Tells};
ghost use Rattle.coko_plan.specs.Working.Sites.{IsOk};
ghost use Rattle.coko_plan.specs.Working.Compiles.{TellsAs, PutsBlock, PutsBlocks};

use crate::entry::Entry;
use crate::fault::CompileFault;
use crate::firing::directions;
use crate::listing::{list_stmt, push};
use crate::marking::marks;
use crate::plan::Plan;
use crate::site::{Site, Stop, number_at};
use coko_block::{Block, RuleFile, Stmt};
use kola_core::{Memory, Name, NameTable};
use kola_rule::RuleTable;
use std::alloc::{AllocError, Global};

/// The names of blocks, in their order.
fn names_of(alloc: Global, blocks: &[Block]) -> Result<NameTable, Memory>
    requires { are_distinct (block_names (map block_tree blocks.now)) ≡ true }
    ensures { IfOk result (λ t. t ≡ block_names (map block_tree blocks.now)) }
{
    let mut names = NameTable::new(alloc);
    for block in blocks {
        names.add(block.name.as_text())?;
    }
    Ok(names)
}

fn copies(block: &Name, name: &Name) -> Result<(Name, Name), Memory>
    ensures { IfOk result (λ r. r ≡ (block.now, name.now)) }
{
    let block = block.copy()?;
    let name = name.copy()?;
    Ok((block, name))
}

/// The fault at a name of a block, with copies of both names.
fn named_fault(block: &Name, stop: Stop) -> Result<CompileFault, Memory>
    ensures { IfOk result (TellsAs block.now stop.entry) }
{
    match stop {
        Stop::UnknownRule(name) => {
            let (block, name) = copies(block, name)?;
            Ok(CompileFault::UnknownRule { block, name })
        }
        Stop::LaterBlock(name) => {
            let (block, name) = copies(block, name)?;
            Ok(CompileFault::LaterBlock { block, name })
        }
        Stop::CannotFire(name) => {
            let (block, name) = copies(block, name)?;
            Ok(CompileFault::CannotFire { block, name })
        }
        Stop::Memory => Ok(CompileFault::Memory),
    }
}

/// The same, or want of memory for the copies.
fn fault_at(block: &Name, stop: Stop) -> CompileFault
    ensures { TellsAs block.now stop.entry result }
{
    match named_fault(block, stop) {
        Ok(fault) => fault,
        Err(AllocError) => CompileFault::Memory,
    }
}

/// Adds the entries of a block, where it is reached. It is given back by the number of its statement; one that is not
/// reached has none, and 0 stands for it.
fn list_block(
    site: &Site,
    entries: &mut Vec<Entry>,
    stmt: &Stmt,
    reached: bool,
) -> Result<usize, CompileFault>
    requires { IsOk site.now }
    ensures { PutsBlock reached site.now (stmt_tree stmt.now) entries.old.items entries.new.items result }
{
    if !reached {
        return Ok(0);
    }
    match list_stmt(site, entries, stmt) {
        Ok(number) => Ok(number),
        Err(stop) => Err(fault_at(site.block, stop)),
    }
}

/// Adds the entries of the reached blocks. All blocks are given back by the numbers of their statements.
fn list_blocks(
    alloc: Global,
    rules: &RuleTable,
    names: &NameTable,
    blocks: &[Block],
    chosen: &Name,
    entries: &mut Vec<Entry>,
) -> Result<Vec<usize>, CompileFault>
    requires names { names.now ≡ block_names (map block_tree blocks.now) }
    requires distinct { are_distinct (block_names (map block_tree blocks.now)) ≡ true }
    requires first { entries.old.items ≡ [] }
    ensures { PutsBlocks (λ v. v.items) (map rule_tree rules.now) chosen.now (map block_tree blocks.now)
        entries.new.items result }
{
    let fires = directions(alloc, rules)?;
    let marks = marks(alloc, blocks, chosen)?;
    let reached = marks.as_slice();
    let mut numbers = Vec::new(alloc);
    for n in 0..blocks.len() {
        let block = &blocks[n];
        let site = Site {
            rules,
            fires: fires.as_slice(),
            names,
            numbers: numbers.as_slice(),
            block: &block.name,
        };
        let number = list_block(&site, entries, &block.stmt, reached[n])?;
        push(&mut numbers, number)?;
    }
    Ok(numbers)
}

/// The number at a place, which is there.
fn start_at(numbers: &[usize], place: usize) -> usize
    ensures { result ≡ or_else (slice_get numbers.now place) 0 }
{
    match number_at(numbers, place) {
        Some(number) => number,
        None => 0,
    }
}

/// The plan of the block of a name, over the rules of a table: the entries of the blocks that it reaches, in the file's
/// order, each block once. The faults but for the first are those of the first faulty name: over the reached blocks in
/// the file's order, and in each in the order of its text. The file's blocks have distinct names, and each arm of a
/// `GIVEN` leads to a function or predicate variable of its pattern, as where the file was read.
pub fn compile(
    alloc: Global,
    file: &RuleFile,
    rules: &RuleTable,
    block: &Name,
) -> Result<Plan, CompileFault>
    requires { BlocksOk (map block_tree file.now.blocks) }
    ensures plan { IfOk result (λ p. IsPlanOf (map rule_tree rules.now) block.now (map block_tree file.now.blocks)
        (entries_of p) (start_of p)) }
    ensures fault { IfErr result
        (λ e. Tells e (fault_of (map rule_tree rules.now) block.now (map block_tree file.now.blocks))) }
{
    let blocks = file.blocks.as_slice();
    let names = names_of(alloc, blocks)?;
    let place = match names.place(block.as_text()) {
        Some(place) => place,
        None => return Err(CompileFault::UnknownBlock),
    };
    let mut entries = Vec::new(alloc);
    let numbers = list_blocks(alloc, rules, &names, blocks, block, &mut entries)?;
    let start = start_at(numbers.as_slice(), place);
    Ok(Plan::of_entries(entries, start))
}
