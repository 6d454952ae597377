//! Worked rows that the definitions compute to.

ghost use Rattle.given_options.specs.Rows.{KeysNamed, OptionsThatGoTogether, OptionsThatWin};

/// The names of options, which of two sources wins, and which options go together.
pub fn worked_rows()
    ensures keys { KeysNamed }
    ensures winners { OptionsThatWin }
    ensures together { OptionsThatGoTogether }
{}
