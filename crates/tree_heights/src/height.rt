//! Heights of trees: the levels of nodes from a root down.

ghost use Rattle.std.specs.Prelude.{◌≡◌, suc, IfOk, map};
ghost use Rattle.tree_heights.specs.Heights.{highest};

use cm_base::NoMemory;

/// The height of a node over parts of this height. A height that a `usize` doesn't hold is want of memory: no memory
/// holds a tree of so many levels.
pub fn above(height: usize) -> Result<usize, NoMemory>
    ensures { IfOk result (λ made. made ≡ suc height) }
{
    match height.checked_add(1) {
        Some(made) => Ok(made),
        None => Err(NoMemory),
    }
}

/// What has a height once it is bare.
pub trait High {
    ghost use Rattle.std.specs.Prelude.{ℕ};

    ghost height: { Self → ℕ };

    fn height(&self) -> Result<usize, NoMemory>
        ensures { IfOk result (λ made. made ≡ height self.now) };
}

/// The height of the highest of these, and 0 of none.
pub fn highest_of<T: High>(items: &[T]) -> Result<usize, NoMemory>
    ensures { IfOk result (λ made. made ≡ highest (map T.height items.now)) }
{
    let mut made = 0usize;
    for item in items {
        made = made.max(item.height()?);
    }
    Ok(made)
}
