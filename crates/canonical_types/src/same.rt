//! Whether entries are the same, node for node.

ghost use Rattle.std.specs.Prelude.{◌≡◌, ◌<◌, true, length};

use cm_base::List;
use semantic_objects::{ConEntry, Scheme, TypeNode, TypeStr, TypeTree, ValueEntry};

/// Whether two nodes are the same.
fn is_same_node(this: &TypeNode, that: &TypeNode) -> bool
    ensures { result ≡ true → this.now ≡ that.now }
{
    match (this, that) {
        (TypeNode::Bound(i), TypeNode::Bound(j)) => i == j,
        (TypeNode::Free(m), TypeNode::Free(n)) => m == n,
        (TypeNode::Made(symbol, parts), TypeNode::Made(other, others)) => {
            symbol.is_same(other) && parts.as_slice() == others.as_slice()
        }
        _ => false,
    }
}

/// Whether two lists of nodes are the same.
fn are_same_nodes(these: &[TypeNode], those: &[TypeNode]) -> bool
    ensures { result ≡ true → these.now ≡ those.now }
{
    if these.len() != those.len() {
        return false;
    }
    for at in 0..these.len() {
        if !is_same_node(&these[at], &those[at]) {
            return false;
        }
    }
    true
}

/// Whether two types have the same nodes. Types that share other parts may be equal all the same.
fn is_same_tree(this: &TypeTree, that: &TypeTree) -> bool
    ensures { result ≡ true → this.now ≡ that.now }
{
    are_same_nodes(this.nodes(), that.nodes())
}

/// Whether two lists of marks are the same.
fn are_same_marks(these: &[bool], those: &[bool]) -> bool
    ensures { result ≡ true → these.now ≡ those.now }
{
    if these.len() != those.len() {
        return false;
    }
    for at in 0..these.len() {
        if these[at] != those[at] {
            return false;
        }
    }
    true
}

/// Whether two schemes are the same.
fn is_same_scheme(this: &Scheme, that: &Scheme) -> bool
    ensures { result ≡ true → this.now ≡ that.now }
{
    if !are_same_marks(this.marks(), that.marks()) {
        return false;
    }
    is_same_tree(this.body(), that.body())
}

/// Whether two constructors are the same.
fn is_same_con(this: &ConEntry, that: &ConEntry) -> bool
    ensures { result ≡ true → this.now ≡ that.now }
{
    this.name.as_bytes() == that.name.as_bytes() && is_same_scheme(&this.scheme, &that.scheme)
}

/// Whether two lists of constructors are the same.
fn are_same_cons(these: &[ConEntry], those: &[ConEntry]) -> bool
    ensures { result ≡ true → these.now ≡ those.now }
{
    if these.len() != those.len() {
        return false;
    }
    for at in 0..these.len() {
        if !is_same_con(&these[at], &those[at]) {
            return false;
        }
    }
    true
}

/// Whether two type structures are the same.
pub(crate) fn is_same_type(this: &TypeStr, that: &TypeStr) -> bool
    ensures { result ≡ true → this.now ≡ that.now }
{
    this.function.arity == that.function.arity
        && is_same_tree(&this.function.body, &that.function.body)
        && are_same_cons(this.cons.as_slice(), that.cons.as_slice())
}

/// Whether two values of one status are the same.
pub(crate) fn is_same_value(this: &ValueEntry, that: &ValueEntry) -> bool
    ensures { result ≡ true → this.now.scheme ≡ that.now.scheme }
{
    is_same_scheme(&this.scheme, &that.scheme)
}
