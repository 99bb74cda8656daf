//! Declarations of types, exceptions, opened structures and infix status, read from lexemes.
#![tactic(auto)]

pub mod datatype_decs;
pub mod exception_decs;
pub mod infix_decs;
pub mod type_decs;
