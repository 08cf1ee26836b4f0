//! The entries of statements.

ghost use Rattle.std.specs.Prelude.{◌≡◌, [], ◌∷◌, ◌++◌, map, IfOk, OnOk};
ghost use Rattle.kola_term.specs.TermView.{term_tree};
ghost use Rattle.coko_block.specs.Statements.{SFire, SGiven, of_stmts, of_arms};
ghost use Rattle.coko_block.specs.StmtViews.{stmt_tree, arm_entry};
ghost use Rattle.coko_plan.specs.Entries.{EGiven};
ghost use Rattle.coko_plan.specs.EntryViews.{entry_tree};
ghost use Rattle.coko_plan.specs.Naming.{names_in, names_among, names_in_arms};
ghost use Rattle.coko_plan.specs.Listing.{with_entry};
ghost use Rattle.coko_plan.specs.Working.Groups.{pair_entry, walk_entry, group};
ghost use Rattle.coko_plan.specs.Working.Sites.{IsOk};
ghost use Rattle.coko_plan.specs.Working.Puts.{Makes, Puts, put_at, put_walk_at, put_left_at, put_more_at, put_right_at};
ghost use Rattle.coko_plan.specs.Working.Puts.{put_all_at, put_arms_at};

use crate::entry::{Entry, PlanArms};
use crate::site::{Meaning, Site, Stop, find_name};
use coko_block::Stmt;
use kola_core::{Memory, Name, Path};
use kola_term::Term;

/// Statements that group to the left.
#[derive(Clone, Copy)]
pub(crate) enum Pairing {
    Seq,
    Else,
}

/// Statements of one part.
#[derive(Clone, Copy)]
pub(crate) enum Walk {
    Bu,
    Td,
    Repeat,
}

fn pair_of(pairing: Pairing, first: usize, second: usize) -> Entry
    ensures { entry_tree result ≡ pair_entry pairing first second }
{
    match pairing {
        Pairing::Seq => Entry::Seq(first, second),
        Pairing::Else => Entry::Else(first, second),
    }
}

fn walk_of(walk: Walk, part: usize) -> Entry
    ensures { entry_tree result ≡ walk_entry walk part }
{
    match walk {
        Walk::Bu => Entry::Bu(part),
        Walk::Td => Entry::Td(part),
        Walk::Repeat => Entry::Repeat(part),
    }
}

/// Adds an entry of any list at the end.
pub(crate) fn push<T: Drop>(all: &mut Vec<T>, it: T) -> Result<(), Memory>
    ensures { OnOk result (all.new.items ≡ all.old.items ++ it ∷ []) }
{
    all.push(it)?;
    Ok(())
}

/// Adds an entry at the end. It is given back by its number.
fn push_entry<'a>(entries: &mut Vec<Entry>, entry: Entry) -> Result<usize, Stop<'a>>
    ensures { Makes (with_entry (map entry_tree entries.old.items) (entry_tree entry)) entries.new.items result }
{
    let number = entries.len();
    push(entries, entry)?;
    Ok(number)
}

/// Adds the entry of a `GIVEN`.
fn push_given<'a>(
    entries: &mut Vec<Entry>,
    pattern: &Term,
    arms: PlanArms,
) -> Result<usize, Stop<'a>>
    ensures { Makes (with_entry (map entry_tree entries.old.items) (EGiven (term_tree pattern.now) arms))
        entries.new.items result }
{
    let pattern = copied(pattern)?;
    push_entry(entries, Entry::Given(pattern, arms))
}

/// A copy of a term.
fn copied(t: &Term) -> Result<Term, Memory>
    ensures { IfOk result (λ c. term_tree c ≡ term_tree t.now) }
{
    match t {
        Term::F(f) => Ok(Term::F(f.copy()?)),
        Term::P(p) => Ok(Term::P(p.copy()?)),
        Term::C(c) => Ok(Term::C(c.copy()?)),
    }
}

/// Adds an arm at the end.
fn push_arm(arms: &mut PlanArms, path: &Path, number: usize) -> Result<(), Memory>
    ensures { OnOk result (arms.new ≡ arms.old ++ (path.now, number) ∷ []) }
{
    let path = path.copy()?;
    arms.push((path, number))
}

/// Adds the groups of statements of these numbers: the first one, and the group of those behind it.
fn push_groups<'a>(entries: &mut Vec<Entry>, numbers: &[usize]) -> Result<usize, Stop<'a>>
    ensures { Makes (group (map entry_tree entries.old.items) numbers.now) entries.new.items result }
{
    if numbers.is_empty() {
        return push_entry(entries, Entry::Skip);
    }
    let mut left = numbers.len() - 1;
    let mut whole = numbers[left];
    while left > 0 {
        left -= 1;
        whole = push_entry(entries, Entry::Then(numbers[left], whole))?;
    }
    Ok(whole)
}

/// Adds the entry of a name, where it is no block's.
fn list_name<'a>(
    site: &Site,
    entries: &mut Vec<Entry>,
    name: &'a Name,
    rev: bool,
) -> Result<usize, Stop<'a>>
    requires { IsOk site.now }
    ensures { Puts (λ n. n) site.now ((name.now, rev) ∷ []) (put_at site.now (SFire name.now rev)) entries.old.items
        entries.new.items result }
{
    match find_name(site, name, rev) {
        Ok(Meaning::Block(number)) => Ok(number),
        Ok(Meaning::Rule(place)) => push_entry(entries, Entry::Fire(place, rev)),
        Err(stop) => Err(stop),
    }
}

/// Adds the entries of a statement. It is given back by its number.
#[cycle(listing)]
pub(crate) fn list_stmt<'a>(
    site: &Site,
    entries: &mut Vec<Entry>,
    s: &'a Stmt,
) -> Result<usize, Stop<'a>>
    requires { IsOk site.now }
    ensures { Puts (λ n. n) site.now (names_in (stmt_tree s.now)) (put_at site.now (stmt_tree s.now)) entries.old.items
        entries.new.items result }
{
    match s {
        Stmt::Fire(name, rev) => list_name(site, entries, name, *rev),
        Stmt::Skip => push_entry(entries, Entry::Skip),
        Stmt::Fail => push_entry(entries, Entry::Fail),
        Stmt::Seq(parts) => list_left(site, entries, Pairing::Seq, parts.as_slice()),
        Stmt::Then(parts) => list_right(site, entries, parts.as_slice()),
        Stmt::Else(parts) => list_left(site, entries, Pairing::Else, parts.as_slice()),
        Stmt::Bu(s) => list_walk(site, entries, Walk::Bu, s.get()),
        Stmt::Td(s) => list_walk(site, entries, Walk::Td, s.get()),
        Stmt::Repeat(s) => list_walk(site, entries, Walk::Repeat, s.get()),
        Stmt::Given(pattern, arms) => list_given(site, entries, pattern, arms.as_slice()),
    }
}

/// The same of a statement over one part.
#[cycle(listing)]
fn list_walk<'a>(
    site: &Site,
    entries: &mut Vec<Entry>,
    walk: Walk,
    s: &'a Stmt,
) -> Result<usize, Stop<'a>>
    requires { IsOk site.now }
    ensures { Puts (λ n. n) site.now (names_in (stmt_tree s.now)) (put_walk_at site.now walk (stmt_tree s.now))
        entries.old.items entries.new.items result }
{
    let part = list_stmt(site, entries, s)?;
    push_entry(entries, walk_of(walk, part))
}

/// The same of statements that group to the left.
#[cycle(listing)]
fn list_left<'a>(
    site: &Site,
    entries: &mut Vec<Entry>,
    pairing: Pairing,
    parts: &'a [Stmt],
) -> Result<usize, Stop<'a>>
    requires { IsOk site.now }
    ensures { Puts (λ n. n) site.now (names_among (of_stmts (map stmt_tree parts.now)))
        (put_left_at site.now pairing (of_stmts (map stmt_tree parts.now))) entries.old.items entries.new.items result }
{
    match parts.split_first() {
        Some((first, others)) => {
            let first = list_stmt(site, entries, first)?;
            list_more(site, entries, pairing, first, others)
        }
        None => push_entry(entries, Entry::Skip),
    }
}

/// The same of the statements behind the first ones, whose group has the number `first`.
#[cycle(listing)]
fn list_more<'a>(
    site: &Site,
    entries: &mut Vec<Entry>,
    pairing: Pairing,
    first: usize,
    parts: &'a [Stmt],
) -> Result<usize, Stop<'a>>
    requires { IsOk site.now }
    ensures { Puts (λ n. n) site.now (names_among (of_stmts (map stmt_tree parts.now)))
        (put_more_at site.now pairing first (of_stmts (map stmt_tree parts.now))) entries.old.items entries.new.items
        result }
{
    let mut whole = first;
    for part in parts {
        let next = list_stmt(site, entries, part)?;
        whole = push_entry(entries, pair_of(pairing, whole, next))?;
    }
    Ok(whole)
}

/// The same of statements that group to the right.
#[cycle(listing)]
fn list_right<'a>(
    site: &Site,
    entries: &mut Vec<Entry>,
    parts: &'a [Stmt],
) -> Result<usize, Stop<'a>>
    requires { IsOk site.now }
    ensures { Puts (λ n. n) site.now (names_among (of_stmts (map stmt_tree parts.now)))
        (put_right_at site.now (of_stmts (map stmt_tree parts.now))) entries.old.items entries.new.items result }
{
    let numbers = list_all(site, entries, parts)?;
    push_groups(entries, numbers.as_slice())
}

/// Adds the entries of statements. They are given back by their numbers.
#[cycle(listing)]
fn list_all<'a>(
    site: &Site,
    entries: &mut Vec<Entry>,
    parts: &'a [Stmt],
) -> Result<Vec<usize>, Stop<'a>>
    requires { IsOk site.now }
    ensures { Puts (λ v. v.items) site.now (names_among (of_stmts (map stmt_tree parts.now)))
        (put_all_at site.now (of_stmts (map stmt_tree parts.now))) entries.old.items entries.new.items result }
{
    let mut numbers = Vec::new(*entries.allocator());
    for part in parts {
        let number = list_stmt(site, entries, part)?;
        push(&mut numbers, number)?;
    }
    Ok(numbers)
}

/// Adds the entries of a `GIVEN`.
#[cycle(listing)]
fn list_given<'a>(
    site: &Site,
    entries: &mut Vec<Entry>,
    pattern: &Term,
    arms: &'a [(Path, Stmt)],
) -> Result<usize, Stop<'a>>
    requires { IsOk site.now }
    ensures { Puts (λ n. n) site.now (names_in_arms (of_arms (map arm_entry arms.now)))
        (put_at site.now (SGiven (term_tree pattern.now) (of_arms (map arm_entry arms.now)))) entries.old.items
        entries.new.items result }
{
    let arms = list_arms(site, entries, arms)?;
    push_given(entries, pattern, arms)
}

/// Adds the entries of the statements of arms. They are given back by their paths and numbers.
#[cycle(listing)]
fn list_arms<'a>(
    site: &Site,
    entries: &mut Vec<Entry>,
    arms: &'a [(Path, Stmt)],
) -> Result<PlanArms, Stop<'a>>
    requires { IsOk site.now }
    ensures { Puts (λ v. v) site.now (names_in_arms (of_arms (map arm_entry arms.now)))
        (put_arms_at site.now (of_arms (map arm_entry arms.now))) entries.old.items entries.new.items result }
{
    let mut listed = PlanArms::new(*entries.allocator());
    for (path, s) in arms {
        let number = list_stmt(site, entries, s)?;
        push_arm(&mut listed, path, number)?;
    }
    Ok(listed)
}
