//! The values at the keys of an object.

use crate::line_fault::LineFault;
use serde_json::Value;

/// A text of graphic ASCII, or null.
pub(crate) fn text_at<'a>(
    object: &'a Value,
    key: &'static str,
) -> Result<Option<&'a str>, LineFault> {
    match object.get(key) {
        None => Err(LineFault::BadValue(key)),
        Some(value) => {
            if value.is_null() {
                return Ok(None);
            }
            match value.as_str() {
                // What is said goes to a terminal, which obeys some other characters.
                Some(text) if text.as_bytes().iter().all(|byte| byte.is_ascii_graphic()) => {
                    Ok(Some(text))
                }
                Some(_) | None => Err(LineFault::BadValue(key)),
            }
        }
    }
}

/// A text.
pub(crate) fn word_at<'a>(object: &'a Value, key: &'static str) -> Result<&'a str, LineFault> {
    match text_at(object, key) {
        Ok(Some(text)) => Ok(text),
        Ok(None) => Err(LineFault::BadValue(key)),
        Err(fault) => Err(fault),
    }
}

/// A number that isn't negative.
pub(crate) fn number_at(object: &Value, key: &'static str) -> Result<u64, LineFault> {
    match object.get(key) {
        None => Err(LineFault::BadValue(key)),
        Some(value) => match value.as_u64() {
            Some(number) => Ok(number),
            None => Err(LineFault::BadValue(key)),
        },
    }
}
