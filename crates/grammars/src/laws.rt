//! The laws of grammars, each for every grammar, over every kind of lexeme and value.

ghost use Rattle.grammars.specs.Laws.{IsLawful, IsReadInTurn, KeepsLimit};
ghost use Rattle.grammars.specs.Wider.{KeepsRefusals};

/// A type that stands for a grammar. It has no code.
pub trait Described {
    ghost use Rattle.grammars.specs.Grammar.{Grammar};

    ghost Lexeme: { Type 0 };

    ghost Value: { Type 0 };

    ghost grammar: { Grammar Lexeme Value };
}

/// A type that stands for rounds: which lexemes begin one, and what stands behind those. It has no code.
pub trait Repeated {
    ghost use Rattle.std.specs.Prelude.{Bool};
    ghost use Rattle.grammars.specs.Grammar.{Grammar};

    ghost Lexeme: { Type 0 };

    ghost Value: { Type 0 };

    ghost begins: { Value → Lexeme → Bool };

    ghost round: { Value → Lexeme → Grammar Lexeme Value };
}

/// A type that stands for a form that nests to the left. It has no code.
pub trait Nested {
    ghost use Rattle.std.specs.Prelude.{ℕ, Bool};
    ghost use Rattle.grammars.specs.Grammar.{Grammar, Tall};

    ghost Lexeme: { Type 0 };

    ghost Left: { Type 0 };

    ghost Right: { Type 0 };

    ghost limit: { ℕ };

    ghost begins: { Lexeme → Bool };

    ghost beside: { Lexeme → Grammar Lexeme (Tall Right) };

    ghost join: { Lexeme → Left → Right → Left };
}

/// A type that stands for two grammars, of which the second is the first with wider limits. It has no code.
pub trait Widened {
    ghost use Rattle.grammars.specs.Grammar.{Grammar};
    ghost use Rattle.grammars.specs.Wider.{IsWider};

    ghost Lexeme: { Type 0 };

    ghost Value: { Type 0 };

    ghost limited: { Grammar Lexeme Value };

    ghost wider: { Grammar Lexeme Value };

    ghost widens: { IsWider limited wider };
}

/// Every grammar obeys the laws.
pub fn grammars_are_lawful<D: Described>()
    ensures { IsLawful D.grammar }
{}

/// All rounds are read one after the other.
pub fn rounds_are_read_in_turn<R: Repeated>()
    ensures { IsReadInTurn R.begins R.round }
{}

/// All forms that nest to the left keep their limit.
pub fn nesting_keeps_its_limit<N: Nested>()
    ensures { KeepsLimit N.limit N.begins N.beside N.join }
{}

/// What is refused under a limit is refused at the same place under a wider one.
pub fn wider_limits_keep_refusals<W: Widened>()
    ensures { KeepsRefusals W.limited W.wider }
{}
