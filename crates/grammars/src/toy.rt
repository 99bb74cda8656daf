//! A toy grammar: sums and products of numbers and names, with brackets, read by recursive descent.

mod cursor;
mod fault;
mod laws;
mod made;
mod reader;
mod refusal;
mod token;
mod tree;

pub use laws::{Sums, sums_are_lawful, sums_keep_refusals, sums_keep_their_limit};
pub use reader::read_sum;
pub use refusal::Refusal;
pub use token::Token;
pub use tree::{Operator, Tree};
