//! The laws of the formats, as calls that do nothing.
ghost use Rattle.bin_formats.specs.Laws.{SpelledIsRead, ReadIsSpelled, NoFrontIsWhole};

/// A binfile, an interface file and a tool's record are read again as what they spell, whatever follows them.
pub fn spelled_is_read()
    ensures { SpelledIsRead }
{}

/// Bytes that are read as a binfile, an interface file or a tool's record begin with the file that spells it.
pub fn read_is_spelled()
    ensures { ReadIsSpelled }
{}

/// No proper front of a binfile, an interface file or a tool's record is one, and no two are spelled alike.
pub fn no_front_is_whole()
    ensures { NoFrontIsWhole }
{}
