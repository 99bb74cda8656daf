//! Infix status: which names are infix at a place, and which operators may stand together.

ghost use Rattle.std.specs.Prelude.{◌≡◌, ◌++◌, ◌∷◌, ◌-◌, [], ◌≤◌, ◌<◌, length, take, drop, slice_get, IfOk, OnErr, OnOk};
ghost use Rattle.infix_names.specs.FixityTables.{status_of, Puts, TellsAlike};
ghost use Rattle.infix_names.specs.Fixities.{fixity_of, entry, initial, products, sums, lists, comparisons, assignments, left_over, joining, clashes, clash, open_after, differ};

use crate::fixity_table::{forget, place_of, recall};
use cm_base::{List, NoMemory, Text};
use indexmap::IndexMap;
use sml_trees::Fixity;
use std::alloc::Global;
use std::marker::Model;

/// The infix status of a name: how it binds as an operator, or that it isn't one.
#[derive(Drop)]
pub struct Status {
    pub name: Text,
    pub fixity: Option<Fixity>,
}

/// What was declared of names up to a place, in the order of the text. Contracts see the list. A table tells where the
/// last entry of each name stands, and each entry where the one of its name before it does.
#[derive(Drop)]
pub struct Fixities {
    entries: Vec<Status>,
    links: Vec<Option<usize>>,
    last: IndexMap<Text, Option<usize>>,
}

impl Model for Fixities {
    ghost use Rattle.std.specs.Prelude.{List};
    ghost use Rattle.infix_names.specs.FixityTables.{IsTable};
    ghost use Rattle.infix_names.specs.declared.fixity.Status.{Status};

    ghost Value = { List Status };

    ghost view = { λ f. f.entries.items };

    ghost invariant = { λ f. IsTable f.last f.links.items f.entries.items };
}

impl Fixities {
    /// No entry. It takes no memory.
    pub fn new(alloc: Global) -> Fixities
        ensures { result ≡ [] }
    {
        Fixities {
            entries: Vec::new(alloc),
            links: Vec::new(alloc),
            last: IndexMap::new(alloc),
        }
    }

    /// How the name binds as an infix operator, if it is one: its last entry says so.
    #[tactic(auto, using(crate::proofs::FixityTables::looked_up))]
    pub fn find(&self, name: &Text) -> Option<Fixity>
        ensures { result ≡ fixity_of self.now name.now }
    {
        match place_of(&self.last, name) {
            Some(place) => status_at(&self.entries, place),
            None => None,
        }
    }

    /// How many entries there are.
    pub fn len(&self) -> usize
        ensures { result ≡ length self.now }
    {
        self.entries.len()
    }

    /// Adds an entry, and leaves all as it was for want of memory.
    pub fn add(&mut self, status: Status) -> Result<(), NoMemory>
        ensures ok { OnOk result (self.new ≡ self.old ++ status ∷ []) }
        ensures err { OnErr result (self.new ≡ self.old) }
    {
        let name = status.name.copy()?;
        let place = place_of(&self.last, &name);
        let before = count_of(&self.links);
        self.links.push(place)?;
        match put(&mut self.entries, &mut self.last, name, status) {
            Ok(()) => Ok(()),
            Err(NoMemory) => {
                self.links.truncate(before);
                Err(NoMemory)
            }
        }
    }

    /// Lets what was declared behind so many entries end.
    pub fn truncate(&mut self, len: usize)
        ensures { self.new ≡ take len self.old }
    {
        if len < self.entries.len() {
            forget(&mut self.last, &self.entries, &self.links, len);
            self.entries.truncate(len);
            self.links.truncate(len);
        }
    }

    /// Ends a scope that began behind `start` entries: of what was declared in it the part behind `kept` entries holds
    /// on.
    pub fn keep(&mut self, start: usize, kept: usize)
        ensures { self.new ≡ left_over start kept self.old }
    {
        if start < kept && start < self.entries.len() {
            forget(&mut self.last, &self.entries, &self.links, start);
            take_out(&mut self.entries, start, kept);
            self.links.truncate(count_of(&self.entries));
            recall(&mut self.last, &self.entries, &mut self.links, start);
        }
    }

    /// What holds at the beginning of a source: the directives of the initial basis.
    #[tactic(auto, unfolding(crate::specs::Fixities::initial))]
    pub fn initial(alloc: Global) -> Result<Fixities, NoMemory>
        ensures { IfOk result (λ fixities. fixities ≡ initial) }
    {
        let mut fixities = Fixities::new(alloc);
        fixities.declare_products(alloc)?;
        fixities.declare_sums(alloc)?;
        fixities.declare_lists(alloc)?;
        fixities.declare_comparisons(alloc)?;
        fixities.declare_assignments(alloc)?;
        Ok(fixities)
    }

    /// Adds the operators of strength 7, as the first.
    fn declare_products(&mut self, alloc: Global) -> Result<(), NoMemory>
        requires { self.old ≡ [] }
        ensures { OnOk result (self.new ≡ products) }
    {
        self.declare(alloc, false, 7, b"/")?;
        self.declare(alloc, false, 7, b"*")?;
        self.declare(alloc, false, 7, b"div")?;
        self.declare(alloc, false, 7, b"mod")
    }

    /// Adds the operators of strength 6 behind those.
    fn declare_sums(&mut self, alloc: Global) -> Result<(), NoMemory>
        requires { self.old ≡ products }
        ensures { OnOk result (self.new ≡ products ++ sums) }
    {
        self.declare(alloc, false, 6, b"+")?;
        self.declare(alloc, false, 6, b"-")?;
        self.declare(alloc, false, 6, b"^")
    }

    /// Adds the operators of strength 5 behind those.
    fn declare_lists(&mut self, alloc: Global) -> Result<(), NoMemory>
        requires { self.old ≡ products ++ sums }
        ensures { OnOk result (self.new ≡ products ++ (sums ++ lists)) }
    {
        self.declare(alloc, true, 5, b"::")?;
        self.declare(alloc, true, 5, b"@")
    }

    /// Adds the operators of strength 4 behind those.
    fn declare_comparisons(&mut self, alloc: Global) -> Result<(), NoMemory>
        requires { self.old ≡ products ++ (sums ++ lists) }
        ensures { OnOk result (self.new ≡ products ++ (sums ++ (lists ++ comparisons))) }
    {
        self.declare(alloc, false, 4, b"=")?;
        self.declare(alloc, false, 4, b"<>")?;
        self.declare(alloc, false, 4, b">")?;
        self.declare(alloc, false, 4, b">=")?;
        self.declare(alloc, false, 4, b"<")?;
        self.declare(alloc, false, 4, b"<=")
    }

    /// Adds the operators of less strength behind those.
    fn declare_assignments(&mut self, alloc: Global) -> Result<(), NoMemory>
        requires { self.old ≡ products ++ (sums ++ (lists ++ comparisons)) }
        ensures { OnOk result (self.new ≡ products ++ (sums ++ (lists ++ (comparisons ++ assignments)))) }
    {
        self.declare(alloc, false, 3, b":=")?;
        self.declare(alloc, false, 3, b"o")?;
        self.declare(alloc, false, 0, b"before")
    }

    /// Adds an infix name.
    fn declare(
        &mut self,
        alloc: Global,
        right: bool,
        strength: u8,
        name: &[u8],
    ) -> Result<(), NoMemory>
        ensures { OnOk result (self.new ≡ self.old ++ entry right strength name.now ∷ []) }
    {
        self.add(Status {
            name: Text::from_bytes(alloc, name)?,
            fixity: Some(Fixity { strength, right }),
        })
    }
}

/// How many items a list has.
fn count_of<T>(items: &Vec<T>) -> usize
    ensures { result ≡ length items.now.items }
{
    items.len()
}

/// The status that the entry at a place gives.
fn status_at(entries: &[Status], place: usize) -> Option<Fixity>
    ensures { result ≡ status_of (slice_get entries.now place) }
{
    match entries.get(place) {
        Some(status) => status.fixity,
        None => None,
    }
}

/// Puts an entry behind the others, and its place into the table. Want of memory leaves both as they were.
fn put(
    entries: &mut Vec<Status>,
    last: &mut IndexMap<Text, Option<usize>>,
    name: Text,
    status: Status,
) -> Result<(), NoMemory>
    ensures entry { OnOk result (entries.new.items ≡ entries.old.items ++ status ∷ []) }
    ensures place { OnOk result (Puts last.old last.new name (length entries.old.items)) }
    ensures none { OnErr result (entries.new.items ≡ entries.old.items) }
    ensures alike { OnErr result (TellsAlike last.old last.new) }
{
    let at = entries.len();
    entries.push(status)?;
    match last.insert(name, Some(at)) {
        Ok(_) => Ok(()),
        Err(_) => {
            entries.truncate(at);
            Err(NoMemory)
        }
    }
}

/// Takes the entries from one place up to another out.
#[tactic(auto, using(crate::proofs::FixitySteps::keep_steps))]
fn take_out(entries: &mut Vec<Status>, start: usize, kept: usize)
    requires some { start < kept }
    requires within { start < length entries.old.items }
    ensures { entries.new.items ≡ left_over start kept entries.old.items }
{
    let len = entries.len();
    if len <= kept {
        entries.truncate(start);
        return;
    }
    move_back(entries, start, kept - start);
    entries.truncate(len - (kept - start));
}

/// Moves so many of the entries from a place on behind all others.
fn move_back(entries: &mut [Status], start: usize, ending: usize)
    requires within { start ≤ length entries.old }
    requires some { ending ≤ length entries.old - start }
    ensures { entries.new
        ≡ take start entries.old ++ (drop ending (drop start entries.old) ++ take ending (drop start entries.old)) }
{
    let (_, declared) = entries.split_at_mut(start);
    declared.rotate_left(ending);
}

/// Whether one is so and the other isn't.
fn differ(one: bool, other: bool) -> bool
    ensures { result ≡ differ one other }
{
    if one { !other } else { other }
}

/// Whether two operators bind equally strongly, from different sides.
fn clashes(f: Fixity, op: Fixity) -> bool
    ensures { result ≡ clashes f op }
{
    op.strength == f.strength && differ(op.right, f.right)
}

/// Whether an operator may not stand behind those of a run, of which the open ones are given.
#[tactic(auto, unfolding(crate::specs::Fixities::clash))]
pub fn clash(f: Fixity, ops: &[Fixity]) -> bool
    ensures { result ≡ clash f ops.now }
{
    ops.iter().any(|op| clashes(f, *op))
}

/// Of the operators those behind which only stronger ones stand, and one more.
pub fn open_after(alloc: Global, ops: &List<Fixity>, f: Fixity) -> Result<List<Fixity>, NoMemory>
    ensures { IfOk result (λ all. all ≡ open_after ops.now f) }
{
    let mut all = List::new(alloc);
    for op in ops.as_slice() {
        if op.strength < f.strength {
            all.add(*op)?;
        }
    }
    all.add(f)?;
    Ok(all)
}

/// The operator that a run goes on with, if it is one and doesn't clash with those before it.
pub fn joining(fixity: Option<Fixity>, ops: &[Fixity]) -> Option<Fixity>
    ensures { result ≡ joining fixity ops.now }
{
    match fixity {
        Some(f) => { if clash(f, ops) { None } else { Some(f) } }
        None => None,
    }
}
