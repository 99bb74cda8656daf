//! A compiler whose sources say which part of them shows in their interface.

ghost use Rattle.std.specs.Prelude.{◌≡◌, ◌≤◌, ◌==◌, length};
ghost use Rattle.std.specs.List.{after_first, before_first, list_any, position, position_or_len};
ghost use Rattle.test_compilers.specs.SeamedSources.{hidden_part, is_given, letters_of, refuses, shown_part};

use crate::asking::ask;
use crate::skeletons::letter_skeleton;
use cm_base::{CompileFault, CompileInput, Compiled, Compiler, Diag, Given, List, Skeleton, Text};
use std::alloc::Global;

/// A compiler of sources `LETTERS:SHOWN;HIDDEN`, in which the first letter is the structure that the source defines
/// and each behind it is one that it uses. The interface of a unit is the part that shows, and its code is its source.
/// A source that has no letter, uses too many or begins with `!` has no skeleton. One whose hidden part begins with `!`
/// is refused when it is compiled, and one whose hidden part begins with `?` and a letter where an interface that it
/// is given has this letter.
#[derive(Debug, Drop)]
pub struct Seamed {
    pub asked: List<Text>,
    pub asked_skeletons: List<Text>,
}

impl Seamed {
    /// A compiler that was asked nothing yet.
    pub fn new(alloc: Global) -> Seamed {
        Seamed {
            asked: List::new(alloc),
            asked_skeletons: List::new(alloc),
        }
    }
}

/// The place of the first such byte of a text.
fn first_place(text: &[u8], mark: u8) -> Option<usize>
    ensures { result ≡ position (λ byte. byte == mark) text.now }
{
    text.iter().position(|byte| *byte == mark)
}

/// The place of the first such byte of a text, or how many bytes there are.
#[tactic(auto, using(crate::proofs::FirstPlaces::found_or_all))]
fn place_of(text: &[u8], mark: u8) -> usize
    ensures place { result ≡ position_or_len (λ byte. byte == mark) text.now }
    ensures within { result ≤ length text.now }
{
    first_place(text, mark).unwrap_or(text.len())
}

/// What stands before the first such byte of a text, and what stands behind it; all and nothing where there is none.
#[tactic(auto, using(crate::proofs::FirstPlaces::none_behind))]
fn parts_at(text: &[u8], mark: u8) -> (&[u8], &[u8])
    ensures before { result.0.now ≡ before_first (λ byte. byte == mark) text.now }
    ensures behind { result.1.now ≡ after_first (λ byte. byte == mark) text.now }
{
    let at = place_of(text, mark);
    if at < text.len() {
        (&text[..at], &text[at + 1..])
    } else {
        (&text[..at], &text[at..])
    }
}

/// The letters of a source.
fn letters_of(source: &[u8]) -> &[u8]
    ensures { result.now ≡ letters_of source.now }
{
    parts_at(source, b':').0
}

/// The part of a source that shows, and the hidden one.
fn seam_of(source: &[u8]) -> (&[u8], &[u8])
    ensures shown { result.0.now ≡ shown_part source.now }
    ensures hidden { result.1.now ≡ hidden_part source.now }
{
    parts_at(parts_at(source, b':').1, b';')
}

/// Whether an interface has a letter.
fn has_letter(given: &Given, letter: u8) -> bool
    ensures { result ≡ list_any (λ byte. byte == letter) given.now.interface }
{
    given
        .interface
        .as_bytes()
        .iter()
        .any(|byte| *byte == letter)
}

/// Whether some interface that is given has a letter.
fn is_given(givens: &[Given], letter: u8) -> bool
    ensures { result ≡ is_given givens.now letter }
{
    givens.iter().any(|given| has_letter(given, letter))
}

/// Whether a hidden part refuses its source, with what its unit is given.
fn refuses(hidden: &[u8], givens: &[Given]) -> bool
    ensures { result ≡ refuses hidden.now givens.now }
{
    match hidden {
        [b'!', ..] => true,
        [b'?', letter, ..] => is_given(givens, *letter),
        _ => false,
    }
}

impl Compiler for Seamed {
    ghost use Rattle.test_compilers.specs.SeamedSources.{seamed, seamed_skeleton};

    ghost defines = { record { skel = seamed_skeleton; compiled = seamed } };

    ghost asked = { λ compiler. compiler.asked };

    ghost asked_skeletons = { λ compiler. compiler.asked_skeletons };

    fn skeleton(
        &mut self,
        alloc: Global,
        unit: &Text,
        source: &Text,
    ) -> Result<Skeleton, CompileFault> {
        ask(&mut self.asked_skeletons, unit)?;
        letter_skeleton(alloc, unit, letters_of(source.as_bytes()))
    }

    fn compile(&mut self, alloc: Global, input: &CompileInput) -> Result<Compiled, CompileFault> {
        ask(&mut self.asked, &input.unit)?;
        let (shown, hidden) = seam_of(input.source.as_bytes());
        if refuses(hidden, input.imports.as_slice()) {
            return Err(CompileFault::Diag(Diag::on_file(alloc, 31, &input.unit)?));
        }
        Ok(Compiled {
            interface: Text::from_bytes(alloc, shown)?,
            code: input.source.copy()?,
        })
    }
}
