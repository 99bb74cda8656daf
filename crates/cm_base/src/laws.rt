//! The laws of a folder's files, as calls that do nothing.
ghost use Rattle.std.specs.Prelude.{◌≡◌, List, ℕ, None, if◌then◌else◌};
ghost use Rattle.std.specs.FinMap.{get};
ghost use Rattle.cm_base.specs.Files.{Files, HasNoStore, is_stored, store_part, project_part};

/// The store's part of a folder has each file below `.cm/` as it is, and the project's part each other file.
pub fn parts_are_exact()
    ensures store { (files : Files) (path : List ℕ)
        → get (store_part files) path ≡ (if is_stored path then get files path else None) }
    ensures project { (files : Files) (path : List ℕ)
        → get (project_part files) path ≡ (if is_stored path then None else get files path) }
{}

/// The project's part of a folder has no store.
pub fn project_has_no_store()
    ensures { (files : Files) → HasNoStore (project_part files) }
{}
