//! The law, so that crates above have it from a call.

ghost use Rattle.lexeme_laws.specs.Limits.{LexemesAreWithinLimits};

/// Each part of an identifier and each type variable of a source of bytes has 1 to 255 bytes from 33 to 126; an integer
/// fits in 64 bits with a sign, and a string and a character are of bytes.
pub fn lexemes_are_within_limits()
    ensures { LexemesAreWithinLimits }
{}
