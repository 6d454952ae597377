ghost use Rattle.std.specs.Prelude.{◌≡◌};
ghost use Rattle.metrics_text.specs.Words.{word_text};

/// What is between the parts of a line.
#[derive(Clone, Copy)]
pub(crate) enum Word {
    Help,
    Type,
    Space,
    EndOfLine,
    Class,
    ResType,
    Role,
    Status,
    Unit,
    Volume,
    Received,
    Sent,
    OfVolume,
    EndOfLabels,
    Point,
}

impl Word {
    /// Its text.
    #[tactic(auto, unfolding(crate::specs::Words::word_text))]
    pub fn text(self) -> &'static str
        ensures { result.now ≡ word_text self }
    {
        match self {
            Word::Help => "# HELP ",
            Word::Type => "\n# TYPE ",
            Word::Space => " ",
            Word::EndOfLine => "\n",
            Word::Class => "{class=\"",
            Word::ResType => "\",type=\"",
            Word::Role => "\",role=\"",
            Word::Status => "\",status=\"",
            Word::Unit => "{unit=\"",
            Word::Volume => "\",volume=\"",
            Word::Received => "{direction=\"received",
            Word::Sent => "{direction=\"sent",
            Word::OfVolume => "{volume=\"",
            Word::EndOfLabels => "\"} ",
            Word::Point => ".",
        }
    }
}
