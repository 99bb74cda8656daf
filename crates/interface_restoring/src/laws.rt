//! The law of reading back, as a public function.

ghost use Rattle.interface_restoring.specs.Promises.{RestoringGoesBack};

/// What `restore` gives is written as the bytes that it was read from, and what is written in canonical form is never
/// refused and read as that form.
#[tactic(auto, using(crate::proofs::Back::goes_back))]
pub fn restoring_goes_back()
    ensures { RestoringGoesBack }
{}
