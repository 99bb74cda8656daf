//! The classes of members and their options.

ghost use Rattle.std.specs.Prelude.{◌≡◌, not};
ghost use Rattle.std.specs.List.{find, list_any};
ghost use Rattle.std.specs.Option.{option_copied};
ghost use Rattle.cm_base.specs.Calls.{Gives};
ghost use Rattle.project_loading.specs.Projects.{class_named, class_by_ending, known, class_of, is_nobasis, is_opaque, has_option, options_of};

use crate::diagnostics::refused;
use cm_base::{Fault, Options, Place, Text};
use cm_description::MemberEntry;
use std::alloc::Global;

/// What a member is: a source of Standard ML, or a description of a group or a library.
#[derive(Clone, Copy, Debug, PartialEq, Eq)]
pub enum Class {
    Sml,
    Cm,
}

/// The class that a word names.
#[tactic(auto, unfolding(crate::specs::Projects::class_named))]
fn class_named(word: &[u8]) -> Option<Class>
    ensures { result ≡ class_named word.now }
{
    if word == b"sml".as_slice() {
        Some(Class::Sml)
    } else if word == b"cm".as_slice() {
        Some(Class::Cm)
    } else {
        None
    }
}

/// The class that a file's name has by its ending.
#[tactic(auto, unfolding(crate::specs::Projects::class_by_ending))]
fn class_by_ending(name: &[u8]) -> Option<Class>
    ensures { result ≡ class_by_ending name.now }
{
    if name.ends_with(b".sml") || name.ends_with(b".sig") || name.ends_with(b".fun") {
        Some(Class::Sml)
    } else if name.ends_with(b".cm") {
        Some(Class::Cm)
    } else {
        None
    }
}

/// A class, or 8 with what has none.
fn known(alloc: Global, at: &Place, name: &Text, class: Option<Class>) -> Result<Class, Fault>
    ensures { Gives result (known at.now name.now class) }
{
    match class {
        Some(class) => Ok(class),
        None => Err(Fault::Diag(refused(alloc, 8, at, name)?)),
    }
}

/// The class of a member: the one that is written, and else that of the ending of its name. 8 where it has none, with
/// the class that is written, and else with the name.
pub fn class_of(alloc: Global, member: &MemberEntry, name: &Text) -> Result<Class, Fault>
    ensures { Gives result (class_of member.now name.now) }
{
    match &member.class {
        Some(word) => known(alloc, &member.at, word, class_named(word.as_bytes())),
        None => known(alloc, &member.at, name, class_by_ending(name.as_bytes())),
    }
}

/// Whether an option hides the initial basis.
#[tactic(auto, unfolding(crate::specs::Projects::is_nobasis))]
fn is_nobasis(option: &[u8]) -> bool
    ensures { result ≡ is_nobasis option.now }
{
    option == b"nobasis".as_slice()
}

/// Whether an option seals the top-level structures.
#[tactic(auto, unfolding(crate::specs::Projects::is_opaque))]
fn is_opaque(option: &[u8]) -> bool
    ensures { result ≡ is_opaque option.now }
{
    option == b"opaque".as_slice()
}

/// Whether a class has an option.
fn has_option(class: Class, option: &Text) -> bool
    ensures { result ≡ has_option class option.now }
{
    match class {
        Class::Sml => is_nobasis(option.as_bytes()) || is_opaque(option.as_bytes()),
        Class::Cm => false,
    }
}

/// The first option that a class hasn't.
fn first_unknown(class: Class, options: &[Text]) -> Option<&Text>
    ensures { option_copied result ≡ find (λ option. not (has_option class option)) options.now }
{
    for option in options {
        if !has_option(class, option) {
            return Some(option);
        }
    }
    None
}

/// Whether an option among these hides the initial basis.
fn has_nobasis(options: &[Text]) -> bool
    ensures { result ≡ list_any is_nobasis options.now }
{
    options.iter().any(|option| is_nobasis(option.as_bytes()))
}

/// Whether an option among these seals the top-level structures.
fn has_opaque(options: &[Text]) -> bool
    ensures { result ≡ list_any is_opaque options.now }
{
    options.iter().any(|option| is_opaque(option.as_bytes()))
}

/// What options set.
fn set_by(options: &[Text]) -> Options
    ensures nobasis { result.nobasis ≡ list_any is_nobasis options.now }
    ensures opaque { result.opaque ≡ list_any is_opaque options.now }
{
    Options {
        nobasis: has_nobasis(options),
        opaque: has_opaque(options),
    }
}

/// What the options of a member set, or 9 with the first one that its class hasn't.
pub fn options_of(alloc: Global, member: &MemberEntry, class: Class) -> Result<Options, Fault>
    ensures { Gives result (options_of member.now class) }
{
    let options = member.options.as_slice();
    match first_unknown(class, options) {
        Some(option) => Err(Fault::Diag(refused(alloc, 9, &member.at, option)?)),
        None => Ok(set_by(options)),
    }
}
