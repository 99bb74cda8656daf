//! The items that conditions choose from lines, taken one after another.

ghost use Rattle.std.specs.Prelude.{◌≡◌, IfOk, OnOk};
ghost use Rattle.cm_base.specs.Calls.{Gives};
ghost use Rattle.cm_conditions.specs.Chosen.{is_taken, error_line};
ghost use Rattle.cm_conditions.specs.Tables.{by_tables};
ghost use Rattle.cm_conditions.specs.Taking.{start, with_item, refused_by, turned_last, closed_by, popped, after, after_all, items_of, Leaves};
ghost use Rattle.cm_conditions.specs.declared.line.LineBody.TheVariants.{If as if_of, Elif as elif_of};

use crate::cond::Cond;
use crate::evaluation::bad_condition;
use crate::line::{Line, LineBody};
use crate::names::Names;
use cm_base::{Diag, Fault, List, NoMemory, Place, Text};
use std::alloc::Global;

/// What is known of the branch in which lines stand.
#[derive(Clone, Copy, Debug)]
pub(crate) struct Branch {
    /// Whether it is chosen.
    pub live: bool,
    /// Whether a branch behind it may be chosen.
    pub waits: bool,
    /// Whether no branch may follow: it is that of an `#else`, or no branch of an `#if`.
    pub last: bool,
}

/// What lines have chosen so far, the branch in which they end, and those around it from the outermost on.
#[derive(Drop)]
pub(crate) struct Selection {
    pub items: List<u32>,
    pub here: Branch,
    pub around: List<Branch>,
}

/// The diagnostic of an `#error`.
fn error_line(alloc: Global, at: &Place, text: &Text) -> Result<Diag, NoMemory>
    ensures { IfOk result (λ diag. diag ≡ error_line at.now text.now) }
{
    let mut names = List::new(alloc);
    names.add(text.copy()?)?;
    Ok(Diag {
        number: 4,
        at: at.clone()?,
        names,
    })
}

/// Whether a branch is chosen: its condition is looked at only where it may be.
fn is_taken(alloc: Global, names: &Names, may: bool, at: &Place, cond: &Cond) -> Result<bool, Fault>
    ensures { Gives result (is_taken may at.now (by_tables names.now cond.now)) }
{
    if !may {
        return Ok(false);
    }
    match cond.value_in(names) {
        Some(value) => Ok(value != 0),
        None => Err(Fault::Diag(bad_condition(alloc, at)?)),
    }
}

impl Selection {
    /// Before the first line.
    fn new(alloc: Global) -> Selection
        ensures { result ≡ start }
    {
        Selection {
            items: List::new(alloc),
            here: Branch {
                live: true,
                waits: false,
                last: true,
            },
            around: List::new(alloc),
        }
    }

    /// Takes an item.
    fn take_item(&mut self, number: u32) -> Result<(), NoMemory>
        ensures { OnOk result (self.new ≡ with_item self.old number) }
    {
        if !self.here.live {
            return Ok(());
        }
        self.items.add(number)?;
        Ok(())
    }

    /// Takes an `#error`.
    fn take_error(&mut self, alloc: Global, at: &Place, text: &Text) -> Result<(), Fault>
        ensures { Leaves result (refused_by at.now text.now self.old) self.new }
    {
        if self.here.live {
            return Err(Fault::Diag(error_line(alloc, at, text)?));
        }
        Ok(())
    }

    /// Takes an `#if`: a new block, in its first branch.
    fn take_if(
        &mut self,
        alloc: Global,
        names: &Names,
        at: &Place,
        cond: &Cond,
    ) -> Result<(), Fault>
        ensures { Leaves result
            (after (by_tables names.now) at.now (if_of cond.now) self.old) self.new }
    {
        let live = is_taken(alloc, names, self.here.live, at, cond)?;
        let waits = self.here.live && !live;
        self.around.add(self.here)?;
        self.here = Branch {
            live,
            waits,
            last: false,
        };
        Ok(())
    }

    /// Takes an `#elif`: the next branch of its block.
    fn take_elif(
        &mut self,
        alloc: Global,
        names: &Names,
        at: &Place,
        cond: &Cond,
    ) -> Result<(), Fault>
        ensures { Leaves result
            (after (by_tables names.now) at.now (elif_of cond.now) self.old)
            self.new }
    {
        if self.here.last {
            return Err(Fault::Diag(bad_condition(alloc, at)?));
        }
        let live = is_taken(alloc, names, self.here.waits, at, cond)?;
        self.here = Branch {
            live,
            waits: self.here.waits && !live,
            last: false,
        };
        Ok(())
    }

    /// Takes an `#else`: the last branch of its block.
    fn take_else(&mut self, alloc: Global, at: &Place) -> Result<(), Fault>
        ensures { Leaves result (turned_last at.now self.old) self.new }
    {
        if self.here.last {
            return Err(Fault::Diag(bad_condition(alloc, at)?));
        }
        self.here = Branch {
            live: self.here.waits,
            waits: false,
            last: true,
        };
        Ok(())
    }

    /// Takes an `#endif`: the branch around its block goes on.
    #[tactic(auto, using(crate::proofs::Selecting::popped_steps))]
    fn take_endif(&mut self, alloc: Global, at: &Place) -> Result<(), Fault>
        ensures { Leaves result (closed_by at.now self.old.items (popped self.old.around)) self.new }
    {
        let Some(outer) = self.around.pop() else {
            return Err(Fault::Diag(bad_condition(alloc, at)?));
        };
        self.here = outer;
        Ok(())
    }

    /// Takes one line.
    fn take(&mut self, alloc: Global, names: &Names, line: &Line) -> Result<(), Fault>
        ensures { Leaves result
            (after (by_tables names.now) line.now.at line.now.body self.old) self.new }
    {
        match &line.body {
            LineBody::Item(number) => Ok(self.take_item(*number)?),
            LineBody::Error(text) => self.take_error(alloc, &line.at, text),
            LineBody::If(cond) => self.take_if(alloc, names, &line.at, cond),
            LineBody::Elif(cond) => self.take_elif(alloc, names, &line.at, cond),
            LineBody::Else => self.take_else(alloc, &line.at),
            LineBody::Endif => self.take_endif(alloc, &line.at),
        }
    }
}

/// The items that these lines choose, where each `#if` among them has its `#endif`.
pub(crate) fn items_of(alloc: Global, names: &Names, lines: &[Line]) -> Result<List<u32>, Fault>
    ensures { Gives result
        (items_of (after_all (by_tables names.now) lines.now start)) }
{
    let mut selection = Selection::new(alloc);
    for line in lines {
        selection.take(alloc, names, line)?;
    }
    let Selection {
        items,
        here: _,
        around: _,
    } = selection;
    Ok(items)
}
