//! The rules of the core language, each after the parts of its phrase: single forms of expressions, the rules of matches,
//! and what declarations make one after another. What a phrase as a whole is inferred by stands above.
#![tactic(auto)]

mod entered;
mod forms;
mod matching;
mod places;
mod plain;
mod rules;
mod sequence;

pub use entered::enter_variables;
pub use forms::{apply, constrain, handle, make_record, raise};
pub use matching::{RuleType, as_first, match_type, rule_pattern, to_of};
pub use places::{place_of_exp, place_of_pat};
pub use plain::{elab_char, elab_int, elab_long, elab_string};
pub use rules::{applied, handled, joined, no_rules, raised};
pub use sequence::{add_made, enter_behind, made_where, nothing_made};
