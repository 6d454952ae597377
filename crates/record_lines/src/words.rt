//! The rules on keys, by their names.
ghost use Rattle.std.specs.Prelude.{◌≡◌};
ghost use Rattle.record_lines.specs.Lines.{rule_name};

use permit_tables::KeyRule;

pub(crate) fn rule_name(rule: KeyRule) -> &'static str
    ensures { result.now ≡ rule_name rule }
{
    match rule {
        KeyRule::K1 => "K1",
        KeyRule::K2 => "K2",
        KeyRule::K3 => "K3",
        KeyRule::K4 => "K4",
        KeyRule::K5 => "K5",
        KeyRule::K6 => "K6",
    }
}
