use program_options::{CommandLineFault, OptionFault};
use std::alloc::AllocError;
use thiserror::Error;

/// Why words aren't those that an option may have.
#[derive(Debug, Drop, Error)]
pub enum WordFault {
    #[error("want of memory")]
    NoMemory,
    /// There is none.
    #[error("no words")]
    NoWords,
    /// Words that are each right can't be given together.
    #[error("{0}")]
    Options(OptionFault),
    /// The word is refused.
    #[error("{0}: {1}")]
    Word(OptionFault, String),
}

impl From<AllocError> for WordFault {
    ghost use Rattle.std.specs.Prelude.{◌≡◌};
    ghost use Rattle.given_options.specs.declared.word_fault.WordFault.TheVariants.{NoMemory};

    ghost from_gives = { λ _ fault. fault ≡ NoMemory };

    fn from(_error: AllocError) -> WordFault {
        WordFault::NoMemory
    }
}

/// What is wrong with a command line that has the words.
impl From<WordFault> for CommandLineFault {
    fn from(fault: WordFault) -> CommandLineFault {
        match fault {
            WordFault::NoMemory => CommandLineFault::NoMemory,
            // An option of the command line has a word.
            WordFault::NoWords => CommandLineFault::Options(OptionFault::NoPlace),
            WordFault::Options(fault) => CommandLineFault::Options(fault),
            WordFault::Word(fault, word) => CommandLineFault::Word(fault, word),
        }
    }
}
