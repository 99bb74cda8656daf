//! A compiler whose interfaces are the fronts of its sources.

ghost use Rattle.std.specs.Prelude.{◌≡◌, IfOk, take};
ghost use Rattle.test_compilers.specs.MarkedSources.{is_given_text, is_refused, marked_interface};

use crate::asking::ask;
use cm_base::{
    CompileFault, CompileInput, Compiled, Compiler, Diag, Given, List, NoMemory, Skeleton, Text,
};
use std::alloc::Global;

/// A compiler whose interface of a source is its first four bytes, or all of it under `nobasis`, and whose code is the
/// source. It refuses a source that begins with `!`, and one that begins with `+` where the first interface that it is
/// given begins with `s`. No source defines or uses a name.
#[derive(Debug, Drop)]
pub struct Marked {
    pub asked: List<Text>,
    pub asked_skeletons: List<Text>,
}

impl Marked {
    /// A compiler that was asked nothing yet.
    pub fn new(alloc: Global) -> Marked {
        Marked {
            asked: List::new(alloc),
            asked_skeletons: List::new(alloc),
        }
    }
}

/// Whether the first interface that is given begins with `s`.
fn is_given_text(givens: &[Given]) -> bool
    ensures { result ≡ is_given_text givens.now }
{
    match givens {
        [given, ..] => given.interface.as_bytes().starts_with(b"s"),
        [] => false,
    }
}

/// Whether a source is refused.
fn is_refused(input: &CompileInput) -> bool
    ensures { result ≡ is_refused input.now }
{
    let source = input.source.as_bytes();
    source.starts_with(b"!")
        || (source.starts_with(b"+") && is_given_text(input.imports.as_slice()))
}

/// The first four bytes of a source.
fn front_of(alloc: Global, source: &[u8]) -> Result<Text, NoMemory>
    ensures { IfOk result (λ front. front ≡ take 4 source.now) }
{
    match source.get(..4) {
        Some(front) => Text::from_bytes(alloc, front),
        None => Text::from_bytes(alloc, source),
    }
}

/// The interface of a source.
fn interface_of(alloc: Global, input: &CompileInput) -> Result<Text, NoMemory>
    ensures { IfOk result (λ interface. interface ≡ marked_interface input.now) }
{
    if input.options.nobasis {
        input.source.copy()
    } else {
        front_of(alloc, input.source.as_bytes())
    }
}

impl Compiler for Marked {
    ghost use Rattle.std.specs.Prelude.{[], Ok};
    ghost use Rattle.test_compilers.specs.MarkedSources.{marked_compiled};

    ghost defines = { record {
      skel = λ unit source. Ok (record { defined = []; free = [] });
      compiled = marked_compiled;
    } };

    ghost asked = { λ compiler. compiler.asked };

    ghost asked_skeletons = { λ compiler. compiler.asked_skeletons };

    fn skeleton(
        &mut self,
        alloc: Global,
        unit: &Text,
        _source: &Text,
    ) -> Result<Skeleton, CompileFault> {
        ask(&mut self.asked_skeletons, unit)?;
        Ok(Skeleton {
            defined: List::new(alloc),
            free: List::new(alloc),
        })
    }

    fn compile(&mut self, alloc: Global, input: &CompileInput) -> Result<Compiled, CompileFault> {
        ask(&mut self.asked, &input.unit)?;
        if is_refused(input) {
            return Err(CompileFault::Diag(Diag::on_file(alloc, 31, &input.unit)?));
        }
        Ok(Compiled {
            interface: interface_of(alloc, input)?,
            code: input.source.copy()?,
        })
    }
}
