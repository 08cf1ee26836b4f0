//! Where names are looked for, and what they are there.

ghost use Rattle.std.specs.Prelude.{◌≡◌, true, None, slice_get, IfOk, IfErr};
ghost use Rattle.kola_core.specs.NameLists.{is_listed};
ghost use Rattle.kola_schema.specs.Schemas.{are_distinct};
ghost use Rattle.coko_plan.specs.Faults.{names_of_rules, no_rule, rule_named, rule_fault};
ghost use Rattle.coko_plan.specs.Listing.{place_of, earlier};
ghost use Rattle.coko_plan.specs.Working.Seen.{fires_at};
ghost use Rattle.coko_plan.specs.Working.Sites.{rules_of, known_of, onwards_of, IsTested, IsOk, site_fault, StopTells, IsMeant};

use kola_core::{Memory, Name, NameTable};
use kola_rule::RuleTable;

/// A block of a file: the rules and which of them may fire, the names of all blocks, and the numbers of the statements of
/// those before it.
#[derive(Clone, Copy)]
pub(crate) struct Site<'a> {
    pub(crate) rules: &'a RuleTable,
    pub(crate) fires: &'a [(bool, bool)],
    pub(crate) names: &'a NameTable,
    pub(crate) numbers: &'a [usize],
    pub(crate) block: &'a Name,
}

/// Why a statement is not listed: a name in it, or want of memory.
#[derive(Clone, Copy)]
pub(crate) enum Stop<'a> {
    UnknownRule(&'a Name),
    LaterBlock(&'a Name),
    CannotFire(&'a Name),
    Memory,
}

impl<'a> From<Memory> for Stop<'a> {
    ghost use Rattle.std.specs.Prelude.{◌≡◌};
    ghost use Rattle.coko_plan.specs.declared.site.Stop.TheVariants as stop;

    ghost from_gives = { λ _ e. e ≡ stop.Memory };

    fn from(_e: Memory) -> Stop<'a> {
        Stop::Memory
    }
}

/// What a name is: an earlier block, by the number of its statement, or a rule, by its place.
#[derive(Clone, Copy)]
pub(crate) enum Meaning {
    Block(usize),
    Rule(usize),
}

/// The number at a place; `None` past the end.
pub(crate) fn number_at(numbers: &[usize], place: usize) -> Option<usize>
    ensures { result ≡ slice_get numbers.now place }
{
    numbers.get(place).copied()
}

/// The number of the earlier block of a name; a reversed name is no block's.
fn earlier(site: &Site, name: &Name, rev: bool) -> Option<usize>
    ensures { result ≡ earlier (known_of site.now) name.now rev }
{
    if rev {
        return None;
    }
    match site.names.place(name.as_text()) {
        Some(place) => number_at(site.numbers, place),
        None => None,
    }
}

/// Whether the name is that of its own block or of a later one.
fn is_onwards(site: &Site, name: &Name) -> bool
    requires { are_distinct site.now.names.now ≡ true }
    ensures { result ≡ is_listed name.now (onwards_of site.now) }
{
    match site.names.place(name.as_text()) {
        Some(place) => place >= site.numbers.len(),
        None => false,
    }
}

/// What stops at a name that no rule has.
fn no_rule<'a>(site: &Site, name: &'a Name) -> Stop<'a>
    requires { are_distinct site.now.names.now ≡ true }
    ensures { StopTells site.now.block.now result (no_rule (onwards_of site.now) site.now.block.now name.now) }
{
    if is_onwards(site, name) {
        Stop::LaterBlock(name)
    } else {
        Stop::UnknownRule(name)
    }
}

/// Whether the rule at a place may fire in a direction.
fn fires(site: &Site, place: usize, rev: bool) -> bool
    requires { IsTested site.now }
    ensures { result ≡ fires_at (slice_get (rules_of site.now) place) rev }
{
    match site.fires.get(place) {
        Some((forwards, backwards)) => { if rev { *backwards } else { *forwards } }
        None => false,
    }
}

/// The place of the rule of a name, which may fire in the direction.
fn rule_of<'a>(site: &Site, name: &'a Name, rev: bool) -> Result<usize, Stop<'a>>
    requires { IsOk site.now }
    ensures found { IfOk result (λ k. k ≡ place_of (names_of_rules (rules_of site.now)) name.now) }
    ensures fits { IfOk result
        (λ _. rule_fault (onwards_of site.now) site.now.block.now name.now rev (rule_named (rules_of site.now) name.now) ≡ None) }
    ensures stops { IfErr result (λ e. StopTells site.now.block.now e
        (rule_fault (onwards_of site.now) site.now.block.now name.now rev (rule_named (rules_of site.now) name.now))) }
{
    match site.rules.find(name) {
        Some(place) => {
            if fires(site, place, rev) {
                Ok(place)
            } else {
                Err(Stop::CannotFire(name))
            }
        }
        None => Err(no_rule(site, name)),
    }
}

/// What a name is at the site.
pub(crate) fn find_name<'a>(site: &Site, name: &'a Name, rev: bool) -> Result<Meaning, Stop<'a>>
    requires { IsOk site.now }
    ensures meant { IfOk result (λ m. IsMeant m (earlier (known_of site.now) name.now rev)
        (place_of (names_of_rules (rules_of site.now)) name.now)) }
    ensures fits { IfOk result (λ _. site_fault site.now (name.now, rev) ≡ None) }
    ensures stops { IfErr result (λ e. StopTells site.now.block.now e (site_fault site.now (name.now, rev))) }
{
    match earlier(site, name, rev) {
        Some(number) => Ok(Meaning::Block(number)),
        None => match rule_of(site, name, rev) {
            Ok(place) => Ok(Meaning::Rule(place)),
            Err(stop) => Err(stop),
        },
    }
}
