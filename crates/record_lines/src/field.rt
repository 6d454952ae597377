ghost use Rattle.std.specs.Prelude.{◌≡◌};
ghost use Rattle.program_options.specs.declared.record_format.RecordFormat.TheVariants as format;
ghost use Rattle.record_lines.specs.Lines.{absent, lead, line_end, mark};

use program_options::RecordFormat;

/// A value of a line, in the order in which they stand there.
#[derive(Clone, Copy)]
pub(crate) enum Field {
    Time,
    Unit,
    Number,
    Nexus,
    Name,
    Class,
    Stage,
    Cell,
    Rule,
    Status,
    Sense,
    Reservation,
}

impl Field {
    /// What comes before it: in JSON its key, in text a blank.
    pub fn lead(self, format: RecordFormat) -> &'static str
        ensures { result.now ≡ lead format self }
    {
        match format {
            RecordFormat::Json => self.key(),
            RecordFormat::Text => self.blank(),
        }
    }

    fn key(self) -> &'static str
        ensures { result.now ≡ lead format.Json self }
    {
        match self {
            Field::Time => "{\"time\":",
            Field::Unit => ",\"unit\":",
            Field::Number => ",\"number\":",
            Field::Nexus => ",\"nexus\":",
            Field::Name => ",\"name\":",
            Field::Class => ",\"class\":",
            Field::Stage => ",\"stage\":",
            Field::Cell => ",\"cell\":",
            Field::Rule => ",\"rule\":",
            Field::Status => ",\"status\":",
            Field::Sense => ",\"sense\":",
            Field::Reservation => ",\"reservation\":",
        }
    }

    fn blank(self) -> &'static str
        ensures { result.now ≡ lead format.Text self }
    {
        match self {
            Field::Time => "",
            Field::Unit
            | Field::Number
            | Field::Nexus
            | Field::Name
            | Field::Class
            | Field::Stage
            | Field::Cell
            | Field::Rule
            | Field::Status
            | Field::Sense
            | Field::Reservation => " ",
        }
    }
}

/// What is on both sides of a value that isn't a number.
pub(crate) fn mark(format: RecordFormat) -> &'static str
    ensures { result.now ≡ mark format }
{
    match format {
        RecordFormat::Json => "\"",
        RecordFormat::Text => "",
    }
}

/// What is written for a value that isn't there.
pub(crate) fn absent(format: RecordFormat) -> &'static str
    ensures { result.now ≡ absent format }
{
    match format {
        RecordFormat::Json => "null",
        RecordFormat::Text => "-",
    }
}

/// What a line ends with.
pub(crate) fn line_end(format: RecordFormat) -> &'static str
    ensures { result.now ≡ line_end format }
{
    match format {
        RecordFormat::Json => "}\n",
        RecordFormat::Text => "\n",
    }
}
