//! A box of tools, one for each class of members.

ghost use Rattle.std.specs.Prelude.{◌≡◌, ◌↔◌, ◌<◌, ◌++◌, ◌∷◌, [], length, set, slice_get, Some, IsTrue, MatchOption, IfErr, OnOk, OnErr};
ghost use Rattle.std.specs.Option.{option_copied};
ghost use Rattle.tool_deriving.specs.Toolboxes.{NoneHas, IsPlaceOf, Registers};

use cm_base::{Text, Tool};
use std::alloc::Global;
use std::marker::Model;

/// Tools, each found by its class. Contracts see the list of them. A tool of the classes `sml` and `cm` is kept, and
/// nothing asks for it.
#[derive(Drop)]
pub struct Toolbox<T: Tool> {
    pub(crate) tools: Vec<T>,
}

impl<T: Tool> Model for Toolbox<T> {
    ghost use Rattle.std.specs.Prelude.{List, ◌<◌, ◌^◌, length};
    ghost use Rattle.std.specs.Coded.{coded_list};

    ghost Value = { List T };

    ghost coded = { coded_list T.code };

    ghost view = { λ b. b.tools.items };

    ghost invariant = { λ b. length b.tools.items < 2 ^ 32 };
}

// Whether a tool has a class.
fn has_class<T: Tool>(tool: &T, class: &Text) -> bool
    ensures { IsTrue result ↔ (T.class tool.now ≡ class.now) }
{
    *tool.class() == *class
}

impl<T: Tool> Toolbox<T> {
    /// An empty box. It takes no memory.
    pub fn new(alloc: Global) -> Toolbox<T>
        ensures { result ≡ [] }
    {
        Toolbox {
            tools: Vec::new(alloc),
        }
    }

    /// The place of the tool of a class, and `None` exactly where no tool has it. A place stays what it is until a tool
    /// is registered. The tools are gone through: there are a handful.
    pub fn find(&self, class: &Text) -> Option<u32>
        ensures { MatchOption result (NoneHas T.class class.now self.now) (IsPlaceOf T.class class.now self.now) }
    {
        for at in 0..self.tools.len() {
            if has_class(&self.tools[at], class) {
                return Some(at as u32);
            }
        }
        None
    }

    /// Puts a tool into the box. `Ok` hands back the old tool of its class, as it is, whose place it takes; that takes
    /// no memory. A tool of a new class goes to the end. `Err` hands the tool back for want of memory, and leaves the box
    /// as it was.
    pub fn register(&mut self, tool: T) -> Result<Option<T>, T>
        ensures { Registers T.class result self.old self.new tool }
    {
        match self.find(tool.class()) {
            Some(at) => Ok(Some(self.replace(at, tool))),
            None => match self.append(tool) {
                Ok(()) => Ok(None),
                Err(back) => Err(back),
            },
        }
    }

    // Puts a tool into a place, and hands back the one that was there.
    fn replace(&mut self, at: u32, tool: T) -> T
        requires { at < length self.old }
        ensures old { slice_get self.old at ≡ Some result }
        ensures new { self.new ≡ set self.old at tool }
    {
        std::mem::replace(&mut self.tools[at as usize], tool)
    }

    // Puts a tool behind the others, of which a place is a number of four bytes.
    fn append(&mut self, tool: T) -> Result<(), T>
        ensures ok { OnOk result (self.new ≡ self.old ++ tool ∷ []) }
        ensures err { OnErr result (self.new ≡ self.old) }
        ensures back { IfErr result (λ back. back ≡ tool) }
    {
        if self.tools.len() >= 4_294_967_295 {
            return Err(tool);
        }
        match self.tools.push(tool) {
            Ok(()) => Ok(()),
            Err(refused) => Err(refused.value),
        }
    }

    /// Drops all tools.
    pub fn close(self) {
        let Toolbox { tools: _tools } = self;
    }
}
