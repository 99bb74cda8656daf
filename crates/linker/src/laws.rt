//! The laws of linked programs, as calls that do nothing.
ghost use Rattle.std.specs.Prelude.{◌≡◌, ◌<◌, ◌^◌, ℕ, List, [], ◌++◌, length, All, Some};
ghost use Rattle.cm_base.specs.declared.record.BuiltUnit.{BuiltUnit};
ghost use Rattle.sml_syntax.specs.ReadingUnit.{IsRead};
ghost use Rattle.linker.specs.declared.program.Linked.{Linked};
ghost use Rattle.linker.specs.declared.program.ProgramUnit.{ProgramUnit};
ghost use Rattle.linker.specs.declared.program.Program.{Program};
ghost use Rattle.linker.specs.Linked.{link_of, linked_program, IsShortBuilt};
ghost use Rattle.linker.specs.Programs.{linked_of, ImportsEarlier, IsProgram, ProvidersFirst};
ghost use Rattle.linker.specs.Reading.{program_of};
ghost use Rattle.linker.specs.Spelling.{linked_file, CanBeSpelled};

/// No file of a linked program is a front of another, and no two programs have one file.
pub fn no_front_is_whole()
    ensures { (a b : Linked) (more : List ℕ) → CanBeSpelled a → CanBeSpelled b
        → linked_file a ++ more ≡ linked_file b → (a ≡ b) × (more ≡ []) }
{}

/// The linked program of short units can be spelled.
pub fn links_can_be_spelled()
    ensures { (units : List BuiltUnit) → length units < 2 ^ 32 → All IsShortBuilt units → CanBeSpelled (link_of units) }
{}

/// What is written of units whose codes are codes, and which import from earlier ones alone, is read as these units.
pub fn program_is_read_again()
    ensures { (linked : Linked) (program : Program) → CanBeSpelled linked → linked_of program ≡ linked
        → All (λ (unit : ProgramUnit). IsRead unit.code) program.units → ImportsEarlier program.units
        → program_of (linked_file linked) ≡ Some program }
{}

/// Bytes are one program at most, and no front of a program's bytes is another program.
pub fn programs_are_apart()
    ensures one { (bytes : List ℕ) (a b : Program) → IsProgram bytes a → IsProgram bytes b → a ≡ b }
    ensures front { (front more : List ℕ) (a b : Program) → IsProgram front a → IsProgram (front ++ more) b
        → (a ≡ b) × (more ≡ []) }
{}

/// Linking units of which each provider stands before its users gives imports from earlier units alone, so what is
/// linked of them is read again where their codes are codes.
pub fn links_are_read_again()
    ensures earlier { (units : List BuiltUnit) (program : Program) → ProvidersFirst units
        → linked_of program ≡ link_of units → ImportsEarlier program.units }
    ensures read { (units : List BuiltUnit) (program : Program) → length units < 2 ^ 32 → All IsShortBuilt units
        → ProvidersFirst units → linked_of program ≡ link_of units
        → All (λ (unit : ProgramUnit). IsRead unit.code) program.units
        → program_of (linked_program units) ≡ Some program }
{}
