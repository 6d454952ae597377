use crate::form::ValueForm;
use given_options::{ServeKey, WordFault};
use program_options::OptionFault;
use std::alloc::AllocError;
use std::fmt;
use thiserror::Error;

/// Why a value isn't one that its key may have.
#[derive(Debug, Drop, Error)]
pub enum ValueFault {
    /// It is of another form, or out of its range.
    Form(ValueForm),
    /// Words that are each right can't be given together.
    Options(OptionFault),
    /// A word of it is refused, as it would be on the command line.
    Word(OptionFault, String),
}

/// What is wrong with a key.
#[derive(Debug, Drop, Error)]
pub enum KeyFault {
    NoMemory,
    /// No option has this name.
    Unknown(String),
    Value(ServeKey, ValueFault),
}

impl KeyFault {
    ghost use Rattle.std.specs.Prelude.{◌≡◌};
    ghost use Rattle.configuration_file.specs.Faults.{fault_of_words};

    /// What is wrong with a key whose words are refused; `form` is what there is to be if there are none.
    pub(crate) fn of_words(key: ServeKey, form: ValueForm, fault: WordFault) -> KeyFault
        ensures { result ≡ fault_of_words key form fault }
    {
        match fault {
            WordFault::NoMemory => KeyFault::NoMemory,
            WordFault::NoWords => KeyFault::Value(key, ValueFault::Form(form)),
            WordFault::Options(fault) => KeyFault::Value(key, ValueFault::Options(fault)),
            WordFault::Word(fault, word) => KeyFault::Value(key, ValueFault::Word(fault, word)),
        }
    }
}

impl From<AllocError> for KeyFault {
    ghost use Rattle.std.specs.Prelude.{◌≡◌};
    ghost use Rattle.configuration_file.specs.declared.key_fault.KeyFault.TheVariants.{NoMemory};

    ghost from_gives = { λ _ fault. fault ≡ NoMemory };

    fn from(_error: AllocError) -> KeyFault {
        KeyFault::NoMemory
    }
}

/// What is reported of an option's fault where the program's name stands before it already.
fn words_of(fault: OptionFault) -> &'static str {
    let text = fault.text();
    text.strip_prefix("vtl: ").unwrap_or(text)
}

impl fmt::Display for ValueFault {
    fn fmt<W: fmt::Write>(&self, f: &mut fmt::Formatter<W>) -> fmt::Result {
        match self {
            ValueFault::Form(form) => write!(f, "{form}"),
            ValueFault::Options(fault) => f.write_str(words_of(*fault)),
            ValueFault::Word(fault, word) => {
                let words = words_of(*fault);
                write!(f, "{words}: {word}")
            }
        }
    }
}

impl fmt::Display for KeyFault {
    fn fmt<W: fmt::Write>(&self, f: &mut fmt::Formatter<W>) -> fmt::Result {
        match self {
            KeyFault::NoMemory => f.write_str("want of memory"),
            KeyFault::Unknown(name) => write!(f, "no option is named {name}"),
            KeyFault::Value(key, fault) => {
                let key = key.text();
                write!(f, "{key}: {fault}")
            }
        }
    }
}
