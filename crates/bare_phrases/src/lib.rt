//! The bare trees of Standard ML as data, for definitions and laws: what elaboration reads of a tree.
#![tactic(auto)]
