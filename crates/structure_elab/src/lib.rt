//! Structure expressions and the declarations in them: the environments that they stand for.
#![tactic(auto)]

mod ends;
mod outermost;
mod phrase;
mod places;
mod plain;
mod ready;
mod scoping;
mod signatures;

pub use outermost::elab_read;
pub use phrase::{elab_str, elab_str_dec};
pub use scoping::leave;
pub use signatures::signature_in;
