//! Type schemes.

ghost use Rattle.std.specs.Prelude.{◌≡◌, ◌<◌, length, IfOk};
ghost use Rattle.semantic_objects.specs.Trees.{TypeScheme, BindsBelow, IsScheme};

use crate::tree::TypeTree;
use cm_base::{List, NoMemory};
use std::alloc::Global;
use std::marker::Model;

/// A type closed over variables, of which some are equality variables.
/// The Definition of Standard ML (Revised), section 4.5.
#[derive(Drop)]
pub struct Scheme {
    marks: List<bool>,
    body: TypeTree,
}

impl Model for Scheme {
    ghost use Rattle.semantic_objects.specs.Trees.{TypeScheme};
    ghost use Rattle.semantic_objects.specs.Codes.{scheme_code};

    ghost Value = { TypeScheme };

    ghost coded = { scheme_code };

    ghost use Rattle.std.specs.Prelude.{length};
    ghost use Rattle.semantic_objects.specs.Trees.{BindsBelow};

    ghost view = { λ s. record { marks = s.marks; body = s.body } };

    ghost invariant = { λ s. BindsBelow (length s.marks) s.body };
}

/// The parts of a scheme: for each of its variables whether it is an equality variable, and its type.
#[derive(Drop)]
pub struct SchemeParts {
    pub marks: List<bool>,
    pub body: TypeTree,
}

impl Scheme {
    /// The scheme of these parts. The nodes of its type are shared by all its copies.
    pub fn make(marks: List<bool>, body: TypeTree) -> Result<Scheme, NoMemory>
        requires { BindsBelow (length marks) body }
        ensures marks { IfOk result (λ scheme. scheme.marks ≡ marks) }
        ensures body { IfOk result (λ scheme. scheme.body ≡ body) }
    {
        Ok(Scheme {
            marks,
            body: body.shared()?,
        })
    }

    /// Its marks and its type.
    pub fn parts(&self, alloc: Global) -> Result<SchemeParts, NoMemory>
        ensures marks { IfOk result (λ parts. parts.marks ≡ self.now.marks) }
        ensures body { IfOk result (λ parts. parts.body ≡ self.now.body) }
        ensures bound { IfOk result (λ parts. BindsBelow (length parts.marks) parts.body) }
    {
        Ok(SchemeParts {
            marks: self.marks.clone()?,
            body: self.body.copy(alloc)?,
        })
    }

    pub fn marks(&self) -> &[bool]
        ensures { result.now ≡ self.now.marks }
    {
        self.marks.as_slice()
    }

    pub fn body(&self) -> &TypeTree
        ensures { result.now ≡ self.now.body }
    {
        &self.body
    }
}
