//! Which calls of a folder in memory fail, and what a failed write leaves: the tests' way to tear files.

/// The calls of a folder.
#[derive(Clone, Copy, Debug, PartialEq, Eq)]
pub enum CallKind {
    Read,
    Write,
    Remove,
    List,
}

/// What a failed write leaves at its path: the old bytes, nothing, or so many of the new bytes (all of
/// them where there are fewer). For a failed removal `Prefix` means the old bytes.
#[derive(Clone, Copy, Debug, PartialEq, Eq)]
pub enum Left {
    Old,
    Nothing,
    Prefix(u32),
}

/// How often each call of a folder was made.
#[derive(Clone, Copy, Debug, PartialEq, Eq)]
pub struct CallCounts {
    pub reads: u64,
    pub writes: u64,
    pub removes: u64,
    pub lists: u64,
}

impl CallCounts {
    ghost use Rattle.std.specs.Prelude.{◌≡◌};
    ghost use Rattle.cm_base.specs.Plans.{no_calls, calls_of, with_call};
    ghost use Rattle.cm_base.specs.Causes.{one_more};

    /// No call yet.
    pub fn none() -> CallCounts
        ensures { result ≡ no_calls }
    {
        CallCounts {
            reads: 0,
            writes: 0,
            removes: 0,
            lists: 0,
        }
    }

    /// Counts a call, and answers its number among those of its kind.
    pub fn next(&mut self, kind: CallKind) -> u64
        ensures number { result ≡ one_more (calls_of self.old kind) }
        ensures counted { self.new ≡ with_call self.old kind }
    {
        match kind {
            CallKind::Read => {
                self.reads = self.reads.saturating_add(1);
                self.reads
            }
            CallKind::Write => {
                self.writes = self.writes.saturating_add(1);
                self.writes
            }
            CallKind::Remove => {
                self.removes = self.removes.saturating_add(1);
                self.removes
            }
            CallKind::List => {
                self.lists = self.lists.saturating_add(1);
                self.lists
            }
        }
    }
}

/// The `nth` call of a kind fails, counted from 1.
#[derive(Clone, Copy, Debug, PartialEq, Eq)]
pub struct FailAt {
    pub kind: CallKind,
    pub nth: u32,
    pub left: Left,
}
