ghost use Rattle.std.specs.Prelude.{◌≡◌, ◌≤◌, length};
ghost use Rattle.tape_flush.specs.Images.{end_at};
ghost use Rattle.tape_flush.specs.Saved.{ends_within, last_end};

/// Where the first `count` objects end, in bytes.
pub(crate) fn end_at(ends: &[u64], count: usize) -> u64
    requires { count ≤ length ends.now }
    ensures { result ≡ end_at ends.now count }
{
    match count.checked_sub(1) {
        Some(last) => ends[last],
        None => 0,
    }
}

/// Where the last object ends, in bytes.
pub(crate) fn last_end(ends: &[u64]) -> u64
    ensures { result ≡ last_end ends.now }
{
    end_at(ends, ends.len())
}

/// How many of the first ends are within so many bytes.
fn count_within(ends: &[u64], size: u64) -> usize
    ensures { result ≡ length (ends_within size ends.now) }
{
    ends.iter().take_while(|end| **end <= size).count()
}

/// Forgets the ends from the first on that isn't within so many bytes.
pub(crate) fn keep_within(ends: &mut Vec<u64>, size: u64)
    ensures { ends.new.items ≡ ends_within size ends.old.items }
{
    let count = count_within(ends, size);
    ends.truncate(count);
}
