//! A folder in memory whose calls fail where a plan says so: how tests tear files.

ghost use Rattle.std.specs.Prelude.{◌≡◌, ◌≤◌, ◌∷◌, [], ◌++◌, Some, Err, OnOk, OnErr, IfErr, take};
ghost use Rattle.std.specs.Option.{option_copied};
ghost use Rattle.std.specs.FinMap.{empty, get, insert};
ghost use Rattle.cm_base.specs.Causes.{HasCause, Rose};
ghost use Rattle.cm_base.specs.Calls.{ReadGives, ListGives, WriteLeaves, RemoveLeaves};
ghost use Rattle.cm_base.specs.Plans.{names, planned, next_planned, with_call, no_calls, FailsAsPlanned, WritesAsPlanned, RemovesAsPlanned};
ghost use Rattle.cm_base.specs.declared.plan.CallKind.TheVariants as call;

use crate::fault::{FolderFault, NoMemory};
use crate::folder::Folder;
use crate::list::List;
use crate::plan::{CallCounts, CallKind, FailAt, Left};
use crate::sure_folder::SureFolder;
use crate::text::Text;
use std::alloc::Global;

/// A folder in memory. Its calls fail exactly where its plan names them.
#[derive(Drop)]
pub struct MemFolder {
    pub files: SureFolder,
    pub plan: List<FailAt>,
    pub calls: CallCounts,
    pub written: List<Text>,
    pub faults: u64,
}

/// Whether an entry of a plan names the call of this kind and number.
#[tactic(auto, unfolding(crate::specs::Plans::names))]
fn is_named(entry: &FailAt, kind: CallKind, nth: u64) -> bool
    ensures { result ≡ names entry.now kind nth }
{
    match (entry.kind, kind) {
        (CallKind::Read, CallKind::Read)
        | (CallKind::Write, CallKind::Write)
        | (CallKind::Remove, CallKind::Remove)
        | (CallKind::List, CallKind::List) => u64::from(entry.nth) == nth,
        _ => false,
    }
}

/// What the plan has the nth call of this kind leave, if it names it.
fn named(plan: &List<FailAt>, kind: CallKind, nth: u64) -> Option<Left>
    ensures { result ≡ planned plan.now kind nth }
{
    for entry in plan.as_slice() {
        if is_named(entry, kind, nth) {
            return Some(entry.left);
        }
    }
    None
}

/// The first bytes of a piece, at most so many.
fn front(bytes: &[u8], most: u32) -> &[u8]
    ensures { result.now ≡ take most bytes.now }
{
    bytes.get(..most as usize).unwrap_or(bytes)
}

impl MemFolder {
    /// An empty folder with an empty plan. It takes no memory.
    pub fn new(alloc: Global) -> MemFolder
        ensures files { result.files ≡ empty }
        ensures plan { result.plan ≡ [] }
        ensures calls { result.calls ≡ no_calls }
        ensures written { result.written ≡ [] }
        ensures faults { result.faults ≡ 0 }
    {
        MemFolder {
            files: SureFolder::new(alloc),
            plan: List::new(alloc),
            calls: CallCounts::none(),
            written: List::new(alloc),
            faults: 0,
        }
    }

    /// Sets a file. Want of memory leaves the folder as it was.
    pub fn put(&mut self, path: &Text, bytes: &[u8]) -> Result<(), NoMemory>
        ensures ok { OnOk result (self.new ≡ record self.old { files = insert self.old.files path.now bytes.now }) }
        ensures err { OnErr result (self.new ≡ self.old) }
    {
        self.files.put(path, bytes)
    }

    /// The bytes of a file, lent in place, or `None` where there is no file of this path.
    pub fn get(&self, path: &Text) -> Option<&[u8]>
        ensures { option_copied result ≡ get self.now.files path.now }
    {
        self.files.get(path)
    }

    /// The path of each write that didn't fail, the oldest first, lent in place.
    pub fn writes(&self) -> &List<Text>
        ensures { result.now ≡ self.now.written }
    {
        &self.written
    }

    /// Replaces the plan, and sets the call numbers back to none. It takes no memory.
    pub fn fail(&mut self, plan: List<FailAt>)
        ensures { self.new ≡ record self.old { plan = plan; calls = no_calls } }
    {
        self.plan = plan;
        self.calls = CallCounts::none();
    }

    /// Counts a call, and tells what the plan has it leave, if it names it.
    fn count(&mut self, kind: CallKind) -> Option<Left>
        ensures left { result ≡ next_planned self.old.plan self.old.calls kind }
        ensures counted { self.new ≡ record self.old { calls = with_call self.old.calls kind } }
    {
        let nth = self.calls.next(kind);
        named(&self.plan, kind, nth)
    }

    /// Sets a file, and lists its path among the writes. Want of memory leaves both as they were.
    fn write_whole(&mut self, path: &Text, bytes: &[u8]) -> Result<(), FolderFault>
        ensures ok { OnOk result (self.new ≡ record self.old {
          files = insert self.old.files path.now bytes.now;
          written = self.old.written ++ path.now ∷ [];
        }) }
        ensures err { OnErr result (self.new ≡ self.old) }
        ensures memory { IfErr result (λ fault. fault ≡ FolderFault.NoMemory) }
    {
        let name = path.copy()?;
        if self.written.push(name).is_err() {
            return Err(FolderFault::NoMemory);
        }
        if self.files.put(path, bytes).is_err() {
            self.written.pop();
            return Err(FolderFault::NoMemory);
        }
        Ok(())
    }

    /// Counts a failure.
    fn failed(&mut self) -> FolderFault
        ensures is { result ≡ FolderFault.Failed }
        ensures counted { self.new ≡ record self.old { faults = self.new.faults } }
        ensures later { self.old.faults ≤ self.new.faults }
        ensures rose { Rose self.old.faults self.new.faults }
    {
        self.faults = self.faults.saturating_add(1);
        FolderFault::Failed
    }
}

impl Folder for MemFolder {
    ghost use Rattle.std.specs.Prelude.{Some};

    ghost holds = { λ f. Some f.files };

    ghost faults = { λ f. f.faults };

    fn read(
        &mut self,
        alloc: Global,
        path: &Text,
        max: u32,
        into: &mut Vec<u8>,
    ) -> Result<bool, FolderFault>
        ensures planned { FailsAsPlanned (next_planned self.old.plan self.old.calls call.Read) result }
        ensures cause { HasCause self.old.faults self.new.faults (result ≡ Err FolderFault.Failed) }
        ensures same { (self.new.files ≡ self.old.files) × (self.new.plan ≡ self.old.plan) × (self.new.written ≡ self.old.written) }
        ensures counted { self.new.calls ≡ with_call self.old.calls call.Read }
        ensures found { ReadGives result (Some self.old.files) path.now max into.old.items into.new.items }
    {
        if self.count(CallKind::Read).is_some() {
            return Err(self.failed());
        }
        self.files.read(alloc, path, max, into)
    }

    fn write(&mut self, alloc: Global, path: &Text, bytes: &[u8]) -> Result<(), FolderFault>
        ensures planned { WritesAsPlanned (next_planned self.old.plan self.old.calls call.Write) result
            self.old.files self.new.files path.now bytes.now }
        ensures cause { HasCause self.old.faults self.new.faults (result ≡ Err FolderFault.Failed) }
        ensures same { self.new.plan ≡ self.old.plan }
        ensures counted { self.new.calls ≡ with_call self.old.calls call.Write }
        ensures written { OnOk result (self.new.written ≡ self.old.written ++ path.now ∷ []) }
        ensures unwritten { OnErr result (self.new.written ≡ self.old.written) }
    {
        match self.count(CallKind::Write) {
            None => self.write_whole(path, bytes),
            Some(Left::Old) => Err(self.failed()),
            Some(Left::Nothing) => {
                self.files.take(path);
                Err(self.failed())
            }
            Some(Left::Prefix(most)) => {
                self.files.put(path, front(bytes, most))?;
                Err(self.failed())
            }
        }
    }

    fn remove(&mut self, alloc: Global, path: &Text) -> Result<(), FolderFault>
        ensures planned { RemovesAsPlanned (next_planned self.old.plan self.old.calls call.Remove) result
            self.old.files self.new.files path.now }
        ensures cause { HasCause self.old.faults self.new.faults (result ≡ Err FolderFault.Failed) }
        ensures same { (self.new.plan ≡ self.old.plan) × (self.new.written ≡ self.old.written) }
        ensures counted { self.new.calls ≡ with_call self.old.calls call.Remove }
    {
        match self.count(CallKind::Remove) {
            None => {
                self.files.take(path);
                Ok(())
            }
            Some(Left::Nothing) => {
                self.files.take(path);
                Err(self.failed())
            }
            Some(Left::Old) => Err(self.failed()),
            Some(Left::Prefix(_)) => Err(self.failed()),
        }
    }

    fn list(
        &mut self,
        alloc: Global,
        prefix: &Text,
        into: &mut List<Text>,
    ) -> Result<(), FolderFault>
        ensures planned { FailsAsPlanned (next_planned self.old.plan self.old.calls call.List) result }
        ensures cause { HasCause self.old.faults self.new.faults (result ≡ Err FolderFault.Failed) }
        ensures same { (self.new.files ≡ self.old.files) × (self.new.plan ≡ self.old.plan) × (self.new.written ≡ self.old.written) }
        ensures counted { self.new.calls ≡ with_call self.old.calls call.List }
        ensures found { ListGives result (Some self.old.files) prefix.now into.old into.new }
    {
        if self.count(CallKind::List).is_some() {
            return Err(self.failed());
        }
        self.files.list(alloc, prefix, into)
    }
}
