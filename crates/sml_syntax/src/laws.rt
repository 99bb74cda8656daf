//! The laws of codes, as calls that do nothing: what is written is read again, what is read is written so, no code is a
//! front of another, and places aren't written.

ghost use Rattle.std.specs.Prelude.{◌≡◌, ℕ, List, [], ◌++◌, Some};
ghost use Rattle.cm_bytes.specs.Fields.{IsBytes};
ghost use Rattle.sml_syntax.specs.Code.{code_of};
ghost use Rattle.sml_syntax.specs.PlacesUnit.{unplaced};
ghost use Rattle.sml_syntax.specs.ReadingUnit.{unit_of, IsRead};
ghost use Rattle.sml_trees.specs.declared.unit.BareUnit.{BareUnit};

/// The code of a unit that stands nowhere is read as that unit.
#[tactic(auto, using(crate::proofs::ReadUnit::unit_again))]
pub fn code_is_read_again()
    ensures { (unit : BareUnit) → IsRead unit → unit_of (code_of unit) ≡ Some unit }
{}

/// Bytes that are read as a unit are that unit's code, and the unit has a code and stands nowhere.
pub fn code_is_spelled_so()
    ensures { (bytes : List ℕ) (unit : BareUnit) → IsBytes bytes → unit_of bytes ≡ Some unit
        → (code_of unit ≡ bytes) × IsRead unit }
{}

/// No two units that stand nowhere have one code, and none has a front of the other's.
#[tactic(auto, using(crate::proofs::ReadUnit::unit_front))]
pub fn no_front_is_code()
    ensures { (a b : BareUnit) (more : List ℕ) → IsRead a → IsRead b → code_of a ++ more ≡ code_of b
        → (a ≡ b) × (more ≡ []) }
{}

/// A unit has the code that it has without its places, and units that differ in places alone have one code.
#[tactic(auto, using(crate::proofs::PlacesUnit::code_same, crate::proofs::PlacesUnit::code_alike))]
pub fn places_are_not_written()
    ensures same { (unit : BareUnit) → code_of (unplaced unit) ≡ code_of unit }
    ensures alike { (a b : BareUnit) → unplaced a ≡ unplaced b → code_of a ≡ code_of b }
{}
