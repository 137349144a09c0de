//! What the definitions make of some command lines: a law, which does nothing when it is called.
ghost use Rattle.commands.specs.Examples.{AreWrong, AsksForPaths, AsksForThreeBits, AsksToBeShown};
ghost use Rattle.commands.specs.Examples.{NamesAFile};

/// `tree --bits 3`, `tree --paths`, a file, help and the version, and two command lines that are wrong.
pub fn some_command_lines()
    ensures asked { AsksForThreeBits }
    ensures paths { AsksForPaths }
    ensures file { NamesAFile }
    ensures shown { AsksToBeShown }
    ensures wrong { AreWrong }
{}
