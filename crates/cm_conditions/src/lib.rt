//! Conditions of conditional lines: their grammar, their trees and their values. docs/descriptions.md has the rules.
#![tactic(auto)]

mod arithmetic;
mod choice;
mod cond;
mod cursor;
mod evaluation;
mod laws;
mod lexeme;
mod lexing;
mod line;
mod names;
mod printing;
mod read;
mod reader;
mod selection;
mod words;

pub use choice::select;
pub use cond::{Cond, Step};
pub use evaluation::value;
pub use laws::{Conditions, conditions_are_lawful, lines_nest_in_one_way};
pub use lexeme::{Lexeme, Mark, Operator, Strength};
pub use line::{Line, LineBody};
pub use printing::{print_condition, space_word};
pub use read::read_condition;
pub use words::is_name;
