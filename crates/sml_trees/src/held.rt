//! Values that are held while something else may fail.
//!
//! Where it fails, they are let go here, in a function of any type. The checker goes through all kinds of trees at each
//! place where a tree may be let go, so the functions that make trees have few such places of their own.

ghost use Rattle.std.specs.Prelude.{◌≡◌, Ok, Err, IfOk, MatchResult};

/// What is held beside what was made meanwhile, or why that wasn't made.
pub fn both<A: Drop, B, E>(held: A, made: Result<B, E>) -> Result<(A, B), E>
    ensures held { IfOk result (λ pair. pair.0 ≡ held) }
    ensures made { MatchResult result (λ pair. made ≡ Ok pair.1) (λ why. made ≡ Err why) }
{
    match made {
        Ok(made) => Ok((held, made)),
        Err(why) => Err(why),
    }
}
