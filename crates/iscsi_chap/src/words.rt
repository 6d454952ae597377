ghost use Rattle.std.specs.Prelude.{◌≡◌, ◌<◌, length, not, IfSome};
ghost use Rattle.std.specs.List.{position};
ghost use Rattle.iscsi_chap.specs.Secrets.{is_blank, first_word, word_of, word_value, some_word_value, trimmed};

/// The first word of a line, and what is behind it.
#[derive(Clone, Copy)]
pub(crate) struct Word<'a> {
    pub(crate) text: &'a [u8],
    pub(crate) rest: &'a [u8],
}

/// The first word of a line, if there is one before a comment.
#[tactic(auto, unfolding(crate::specs::Secrets::first_word))]
pub(crate) fn first_word(line: &[u8]) -> Option<Word<'_>>
    ensures { word_value result ≡ first_word line.now }
{
    let words = trimmed(line);
    if words.is_empty() || words[0] == b'#' {
        return None;
    }
    Some(word_of(words))
}

/// The line from its first byte on that isn't blank.
fn trimmed(line: &[u8]) -> &[u8]
    ensures { result.now ≡ trimmed line.now }
{
    match word_place(line) {
        None => &[],
        Some(place) => &line[place..],
    }
}

/// What stands before the first blank, and the rest.
fn word_of(words: &[u8]) -> Word<'_>
    ensures { some_word_value result ≡ word_of words.now }
{
    match blank_place(words) {
        None => Word {
            text: words,
            rest: &[],
        },
        Some(place) => Word {
            text: &words[..place],
            rest: &words[place..],
        },
    }
}

/// Where the first byte stands that isn't blank.
fn word_place(line: &[u8]) -> Option<usize>
    ensures place { result ≡ position (λ b. not (is_blank b)) line.now }
    ensures within { IfSome result (λ place. place < length line.now) }
{
    line.iter().position(|byte| !is_blank(*byte))
}

/// Where the first blank stands.
fn blank_place(words: &[u8]) -> Option<usize>
    ensures place { result ≡ position is_blank words.now }
    ensures within { IfSome result (λ place. place < length words.now) }
{
    words.iter().position(|byte| is_blank(*byte))
}

/// Whether the byte parts words: a space, a tab, or the carriage return of a line's end.
fn is_blank(byte: u8) -> bool
    ensures { result ≡ is_blank byte }
{
    byte == b' ' || byte == b'\t' || byte == b'\r'
}
