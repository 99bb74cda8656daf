//! Descriptions of groups and libraries, and what a folder's description leads to: a project of sources.
#![tactic(auto)]

mod bytes;
mod cursor;
mod description;
mod directive;
mod export_list;
mod found;
mod laws;
mod lines;
mod loaded;
mod member_list;
mod modules;
mod print;
mod read;
mod reader;
mod source;
mod stop;
mod word;

pub use description::{Description, Entry, MemberEntry};
pub use directive::Directive;
pub use found::{Classed, Exports, Members};
pub use laws::{descriptions_are_lawful, text_has_one_answer, text_has_one_description};
pub use loaded::{Export, Group, Project, Unit, UnitBody, Wanted};
pub use print::print_description;
pub use read::read_description;
pub use word::WordKind;
