//! Laws over the definitions alone.
ghost use Rattle.std.specs.Prelude.{◌≡◌, List, Some};
ghost use Rattle.norm_settings.specs.OptionTable.{Text, name_of};
ghost use Rattle.norm_settings.specs.RunWords.{PlainLine, line_of};
ghost use Rattle.norm_settings.specs.Grammar.{IsWrittenAs};
ghost use Rattle.norm_settings.specs.declared.options.Choice.{Choice};

/// States that words are read as a line exactly if they are written as one: uses of options, each
/// in one of its forms, once, with a value that fits, and then the names.
pub fn lines_are_those_written()
    ensures read { (words : List Text) (line : PlainLine) → line_of words ≡ Some line → IsWrittenAs words line }
    ensures written { (words : List Text) (line : PlainLine) → IsWrittenAs words line → line_of words ≡ Some line }
{}

/// States that no two options have the same name.
pub fn names_are_apart()
    ensures { (first second : Choice) → name_of first ≡ name_of second → first ≡ second }
{}
