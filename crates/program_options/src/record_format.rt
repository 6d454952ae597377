ghost use Rattle.std.specs.Prelude.{◌≡◌};
ghost use Rattle.program_options.specs.RecordFormats.{format_in, format_text};

use crate::option_fault::OptionFault;

/// How the lines of records are written into a file.
#[derive(Clone, Copy, Debug, PartialEq, Eq)]
pub enum RecordFormat {
    /// Each as an object of JSON.
    Json,
    /// Each as words with a blank between them.
    Text,
}

impl RecordFormat {
    /// Its name.
    pub fn text(self) -> &'static str
        ensures { result.now ≡ format_text self }
    {
        match self {
            RecordFormat::Json => "json",
            RecordFormat::Text => "text",
        }
    }
}

/// The format with this name (profile).
pub fn record_format_of(text: &str) -> Result<RecordFormat, OptionFault>
    ensures { result ≡ format_in text.now }
{
    match text {
        "json" => Ok(RecordFormat::Json),
        "text" => Ok(RecordFormat::Text),
        _ => Err(OptionFault::BadFormat),
    }
}
