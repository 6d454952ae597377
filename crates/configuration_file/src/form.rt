use std::fmt;

/// What the value of a key has to be.
#[derive(Clone, Copy, Debug, PartialEq, Eq)]
pub enum ValueForm {
    Switch,
    Number { least: u32, most: u32 },
    Text,
    /// An array of texts, one at least.
    Texts,
    /// A table of texts.
    TextTable,
}

impl fmt::Display for ValueForm {
    ghost use Rattle.std.specs.Prelude.{Some};
    ghost use Rattle.configuration_file.specs.Faults.{form_text};

    ghost output = { λ form. Some (form_text form) };

    fn fmt<W: fmt::Write>(&self, f: &mut fmt::Formatter<W>) -> fmt::Result {
        match self {
            ValueForm::Switch => f.write_str("give true or false"),
            ValueForm::Number { least, most } => {
                write!(f, "give a whole number from {least} to {most}")
            }
            ValueForm::Text => f.write_str("give a text in quotes"),
            ValueForm::Texts => f.write_str("give an array of texts, such as [\"a\", \"b\"]"),
            ValueForm::TextTable => {
                f.write_str("give a table with a line \"NAME\" = \"SAS\" for each host")
            }
        }
    }
}
