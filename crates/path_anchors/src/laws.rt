//! The laws of anchors and names, as calls that do nothing.

ghost use Rattle.path_anchors.specs.Laws.{FileHasOneName, NameMeansItself, NameLiesInProject, NameLiesWhereItSays};

/// Two written paths that mean one file of the folder have one name, and a name means itself at the top.
pub fn a_file_has_one_name()
    ensures one { FileHasOneName }
    ensures itself { NameMeansItself }
{}

/// Where a name lies: in the folder, outside the store, by components that lead down; a plain name in no anchor's
/// directory, and an anchored one in its own.
pub fn names_lie_in_the_project()
    ensures project { NameLiesInProject }
    ensures place { NameLiesWhereItSays }
{}
