//! Whether labels differ.

ghost use Rattle.std.specs.Prelude.{◌≡◌, ◌↔◌, false, IsTrue};
ghost use Rattle.semantic_objects.specs.Symbols.{same_text, AreApart, AreDiffering};

use cm_base::Text;

/// Whether two labels are one.
fn are_one(this: &Text, that: &Text) -> bool
    ensures { IsTrue result ↔ (this.now ≡ that.now) }
{
    this.as_bytes() == that.as_bytes()
}

/// Whether two labels differ.
fn differ(this: &Text, that: &Text) -> bool
    ensures { IsTrue result → same_text this.now that.now ≡ false }
{
    !are_one(this, that)
}

/// Whether a label is none of these.
fn is_apart(label: &Text, labels: &[Text]) -> bool
    ensures { IsTrue result → AreApart label.now labels.now }
{
    match labels {
        [first, rest @ ..] => differ(label, first) && is_apart(label, rest),
        [] => true,
    }
}

/// Whether no two labels are one.
pub fn all_differ(labels: &[Text]) -> bool
    ensures { IsTrue result → AreDiffering labels.now }
{
    match labels {
        [first, rest @ ..] => is_apart(first, rest) && all_differ(rest),
        [] => true,
    }
}
