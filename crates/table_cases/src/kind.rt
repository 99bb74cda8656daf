//! The kinds of cases, by the names that stand behind `@`.

/// What a case is a case of.
#[derive(Clone, Copy)]
pub enum Kind {
    /// `table`: the calls of a table of types, by steps. Types have the numbers in which they came: `fresh`,
    /// `fresh-eq`, `rigid` and `rigid-eq` make a variable, `con NAME ID..` a type name of the basis over types, `arrow
    /// ID ID` a function type, `record LABEL ID ..` a record type, and `instance NUMBER` an instance of a scheme.
    /// `close ID KEPT..` makes a scheme, of which `show NUMBER` is the text. `type ID` is the text of a type, with
    /// `?a`, `?b` for its variables; `look ID` what stands there, one level of it; `size ID` the nodes of its tree.
    /// `unify ID ID` and `covers ID ID KEPT..`, of the schemes of two types, say what they answer. `undone ID ID` is
    /// the text of a pair of two types when they were made one; all of it is undone then. `declare ID ID` is the text
    /// of a new function type from a variable to a rigid one, closed by age, and again after the first type was made
    /// one with it and after the second was made one with its argument; `left` says that the rigid variable may not be
    /// closed, and all of it is undone. `lists`, `pairs-left`, `arrows-left`, `arrows-right`, `doubled` and `instances`
    /// (a pair of two instances of the scheme of the type before) with `ID COUNT` make a deep type, `wide COUNT` a
    /// record of so many variables, and `unify-times ID ID COUNT` and `declare-times ID ID COUNT` do these steps so
    /// often. `sizes ID COUNT` puts a type in for a new variable so often, each time with a look at its size, of which
    /// it answers the last. `entered NUMBER COUNT` enters a scheme into the table and makes so many instances of what the
    /// table has then, of which it keeps the last.
    Table,
}

/// The kinds with their names.
const KINDS: [(&[u8], Kind); 1] = [(b"table", Kind::Table)];

/// The kind of a name.
pub fn kind_of(name: &[u8]) -> Option<Kind> {
    for (known, kind) in KINDS {
        if known == name {
            return Some(kind);
        }
    }
    None
}
