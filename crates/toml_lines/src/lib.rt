//! The lines of a text in TOML on which something is, counted from 1.
#![tactic(auto)]

ghost use Rattle.std.specs.Prelude.{◌≤◌, ◌<◌, length, IfOk, IfSome};

use std::alloc::{AllocError, Global};
use toml::Table;

/// The line of the byte at a place.
pub fn line_of(text: &[u8], place: usize) -> usize
    ensures { 1 ≤ result }
{
    let before = &text[..place.min(text.len())];
    before
        .iter()
        .filter(|byte| **byte == b'\n')
        .count()
        .saturating_add(1)
}

/// The first line of the statement by which the table of a text comes to have something. The text is TOML, and so is each beginning of it
/// that ends with a statement; what a beginning has, each longer one has too.
pub fn first_line_with<F: Fn(&Table) -> bool>(
    alloc: Global,
    text: &[u8],
    has: F,
) -> Result<usize, AllocError>
    requires { F.IsAlwaysCallable has }
    ensures { IfOk result (λ line. 1 ≤ line) }
{
    let ends = ends_of_lines(alloc, text)?;
    // The first `low` lines don't have it, and no beginning from `high` lines on need be looked at.
    let mut low = 0usize;
    let mut high = ends.len();
    'halves: while low < high && high - low > 1 {
        let middle = low + (high - low) / 2;
        match next_beginning(alloc, text, &ends[middle..high], &has)? {
            Some(Beginning { more, has: false }) => low = middle + more,
            Some(Beginning { has: true, .. }) | None => high = middle,
        }
    }
    Ok(low.saturating_add(1))
}

/// A beginning of a text that is TOML.
#[derive(Clone, Copy)]
struct Beginning {
    /// It ends so many lines after the first at which it could.
    more: usize,
    has: bool,
}

/// The first of several beginnings of a text that is TOML, and whether its table has something.
fn next_beginning<F: Fn(&Table) -> bool>(
    alloc: Global,
    text: &[u8],
    ends: &[usize],
    has: &F,
) -> Result<Option<Beginning>, AllocError>
    requires { F.IsAlwaysCallable has.now }
    ensures { IfOk result (λ beginning. IfSome beginning (λ b. b.more < length ends.now)) }
{
    for (more, end) in ends.iter().enumerate() {
        let beginning = text.get(..*end).unwrap_or(text);
        match toml::table_from_slice(alloc, beginning) {
            Ok(table) => return Ok(Some(Beginning {
                more,
                has: has(&table),
            })),
            Err(fault) if fault.is_memory() => return Err(AllocError),
            Err(_) => {}
        }
    }
    Ok(None)
}

/// Where each line of a text ends, with its line feed. The first is that of no line.
fn ends_of_lines(alloc: Global, text: &[u8]) -> Result<Vec<usize>, AllocError> {
    let mut ends = Vec::new(alloc);
    ends.push(0)?;
    for (place, byte) in text.iter().enumerate() {
        if *byte == b'\n' {
            ends.push(place + 1)?;
        }
    }
    ends.push(text.len())?;
    Ok(ends)
}

#[cfg(test)]
mod tests {
    use super::*;
    use std::test::Fail;

    const TEXT: &str =
        "# a\none = 1\n\ntwo = [\n  \"x\",\n  \"y\",\n]\n[[three]]\nfour = 4\n[[three]]\nfour = 4\nfive = 5\n";

    fn line_with(alloc: Global, key: &str) -> Result<usize, AllocError> {
        first_line_with(
            alloc,
            TEXT.as_bytes(),
            |table: &Table| table.get(key).is_some(),
        )
    }

    #[test]
    fn finds_lines(rt: HostRuntime) -> Result<(), Fail> {
        assert_eq!(rt; line_of(b"a\nb\n", 0), 1);
        assert_eq!(rt; line_of(b"a\nb\n", 2), 2);
        assert_eq!(rt; line_of(b"a\nb\n", 9), 3);
        assert_eq!(rt; line_with(rt.alloc(), "one")?, 2);
        assert_eq!(rt; line_with(rt.alloc(), "two")?, 4);
        assert_eq!(rt; line_with(rt.alloc(), "three")?, 8);
        let fifth = first_line_with(rt.alloc(), TEXT.as_bytes(), |table: &Table| {
            match table.get("three").and_then(toml::Value::as_array) {
                Some(tables) => tables.iter().any(|it| it.get("five").is_some()),
                None => false,
            }
        })?;
        assert_eq!(rt; fifth, 12);
        assert_eq!(rt;
            first_line_with(rt.alloc(), b"a = 1", |_table: &Table| true)?,
            1
        );
        Ok(())
    }
}
