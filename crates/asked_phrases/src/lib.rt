//! What cases ask of the phrases that texts are. A text is read and made bare here, and its tree ends here, so that the
//! programs of cases see phrases by reference alone.
#![tactic(auto)]

mod asking;
mod parts;

pub use asking::{AsksDeclarations, AsksExpressions, declarations_answer, expression_answer};
pub use declaration_texts::UNIT;
pub use parts::body_of;
