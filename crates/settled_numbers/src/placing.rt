//! Where a range goes among others.
ghost use Rattle.std.specs.Prelude.{◌≡◌, ◌≤◌, ◌<◌, ◌+◌, ◌-◌, MatchOption, OnOk, OnErr, true, take, drop, length, slice_index_or, IfSome};
ghost use Rattle.settled_numbers.specs.declared.number_range.NumberRange.{NumberRange};
ghost use Rattle.settled_numbers.specs.Numbers.{is_joined, Meets};
ghost use Rattle.settled_numbers.specs.Placing.{LowFits, HighFits, FitsIn, filled};

use crate::gap::Gap;
use crate::number_range::NumberRange;
use std::alloc::AllocError;

/// How many ranges begin at a number or below it, counted from behind.
fn place(ranges: &[NumberRange], first: u64) -> usize
    ensures within { result ≤ length ranges.now }
    ensures above { (d : NumberRange) → result < length ranges.now → first < (slice_index_or ranges.now result d).first }
    ensures below { (d : NumberRange) → 0 < result → (slice_index_or ranges.now (result - 1) d).first ≤ first }
{
    let mut at = ranges.len();
    while at > 0 && first < ranges[at - 1].first {
        at -= 1;
    }
    at
}

/// How many ranges in front of a place stay as they are, and where the range begins then.
fn low_end(ranges: &[NumberRange], at: usize, range: NumberRange) -> Option<(usize, u64)>
    requires joined { is_joined 0 ranges.now ≡ true }
    requires within { at ≤ length ranges.now }
    requires below { (d : NumberRange) → 0 < at → (slice_index_or ranges.now (at - 1) d).first ≤ range.first }
    ensures fits { MatchOption result (Meets ranges.now range) (λ p. LowFits (take at ranges.now) (take p.0 ranges.now) range p.1) }
    ensures near { IfSome result (λ p. (p.0 ≤ at) × (at ≤ p.0 + 1)) }
{
    if at == 0 {
        return Some((0, range.first));
    }
    let low = ranges[at - 1];
    if range.first <= low.last {
        return None;
    }
    if range.first - low.last == 1 {
        Some((at - 1, low.first))
    } else {
        Some((at, range.first))
    }
}

/// Behind how many ranges those begin that stay as they are, and where the range ends then.
fn high_end(ranges: &[NumberRange], at: usize, range: NumberRange) -> Option<(usize, u64)>
    requires joined { is_joined 0 ranges.now ≡ true }
    requires within { at ≤ length ranges.now }
    requires above { (d : NumberRange) → at < length ranges.now → range.first < (slice_index_or ranges.now at d).first }
    ensures fits { MatchOption result (Meets ranges.now range) (λ p. HighFits (drop at ranges.now) (drop p.0 ranges.now) range p.1) }
    ensures near { IfSome result (λ p. (at ≤ p.0) × (p.0 ≤ at + 1) × (p.0 ≤ length ranges.now)) }
{
    if at == ranges.len() {
        return Some((at, range.last));
    }
    let high = ranges[at];
    if high.first <= range.last {
        return None;
    }
    if high.first - range.last == 1 {
        Some((at + 1, high.last))
    } else {
        Some((at, range.last))
    }
}

/// Where a range goes, if none of its numbers is there.
pub(crate) fn fit(ranges: &[NumberRange], range: NumberRange) -> Option<Gap>
    requires { is_joined 0 ranges.now ≡ true }
    ensures { MatchOption result (Meets ranges.now range) (λ g. FitsIn ranges.now range g) }
{
    let at = place(ranges, range.first);
    let (from, first) = low_end(ranges, at, range)?;
    let (to, last) = high_end(ranges, at, range)?;
    Some(Gap {
        from,
        to,
        range: NumberRange { first, last },
    })
}

/// Puts one range in place of none, one or two.
pub(crate) fn fill(ranges: &mut Vec<NumberRange>, gap: Gap) -> Result<(), AllocError>
    requires order { gap.from ≤ gap.to }
    requires few { gap.to ≤ gap.from + 2 }
    requires within { gap.to ≤ length ranges.old.items }
    ensures ok { OnOk result (ranges.new.items ≡ filled ranges.old.items gap.from gap.to gap.range) }
    ensures err { OnErr result (ranges.new.items ≡ ranges.old.items) }
{
    if gap.from == gap.to {
        ranges.insert(gap.from, gap.range)?;
        return Ok(());
    }
    ranges[gap.from] = gap.range;
    if gap.to - gap.from == 2 {
        ranges.remove(gap.from + 1);
    }
    Ok(())
}
