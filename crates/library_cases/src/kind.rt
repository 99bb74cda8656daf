//! The kinds of cases, by the names that stand behind `@`.

/// What a case is a case of.
#[derive(Clone, Copy)]
pub enum Kind {
    /// Texts with an answer each.
    Text(TextKind),
    /// Something that answers to one step after another.
    Scene(SceneKind),
}

/// A kind of cases of texts.
#[derive(Clone, Copy)]
pub enum TextKind {
    /// `texts`: how two texts stand to one another.
    Texts,
    /// `on-file`: a diagnostic on a whole file.
    OnFile,
    /// `tokens`: the tokens of a description, or its refusal.
    Tokens,
    /// `scan`: the tokens of a text before its refusal, and the place of that.
    Scan,
    /// `sum`: the tree of a sum, within so many levels.
    Sum,
    /// `hash`: the name of a text's hash.
    Hash,
    /// `same-hash`: whether the last 32 bytes are the hash of those before them.
    SameHash,
    /// `written`: the bytes of fields.
    Written,
    /// `value`: the value of a condition.
    Value,
    /// `condition`: a condition as it is printed.
    Condition,
    /// `select`: the items that conditional lines choose.
    Select,
}

/// A kind of cases of steps.
#[derive(Clone, Copy)]
pub enum SceneKind {
    /// `fields`: the fields of bytes, as they are read.
    Fields,
    /// `sure-folder`: a folder in memory that doesn't fail.
    SureFolder,
    /// `folder`: a folder in memory with plans of failing calls.
    Folder,
    /// `sure-sink`: a sink in memory that doesn't fail.
    SureSink,
    /// `sink`: a sink in memory with plans of failing calls.
    Sink,
}

/// The kinds of texts with their names.
const TEXT_KINDS: [(&[u8], TextKind); 11] = [
    (b"texts", TextKind::Texts),
    (b"on-file", TextKind::OnFile),
    (b"tokens", TextKind::Tokens),
    (b"scan", TextKind::Scan),
    (b"sum", TextKind::Sum),
    (b"hash", TextKind::Hash),
    (b"same-hash", TextKind::SameHash),
    (b"written", TextKind::Written),
    (b"value", TextKind::Value),
    (b"condition", TextKind::Condition),
    (b"select", TextKind::Select),
];

/// The kinds of steps with their names.
const SCENE_KINDS: [(&[u8], SceneKind); 5] = [
    (b"fields", SceneKind::Fields),
    (b"sure-folder", SceneKind::SureFolder),
    (b"folder", SceneKind::Folder),
    (b"sure-sink", SceneKind::SureSink),
    (b"sink", SceneKind::Sink),
];

/// The kind of steps of a name.
fn scene_kind_of(name: &[u8]) -> Option<Kind> {
    for (known, kind) in SCENE_KINDS {
        if known == name {
            return Some(Kind::Scene(kind));
        }
    }
    None
}

/// The kind of a name.
pub fn kind_of(name: &[u8]) -> Option<Kind> {
    for (known, kind) in TEXT_KINDS {
        if known == name {
            return Some(Kind::Text(kind));
        }
    }
    scene_kind_of(name)
}
