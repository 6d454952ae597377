//! How the faults of a file of secrets say what they are; the program says it in other words.
use super::assert_same;
use iscsi_chap::{LineFault, SecretsFault};

const ROWS: [(LineFault, &'static str); 5] = [
    (
        LineFault::FieldCount,
        "line 3: expected NAME USER SECRET, or NAME USER SECRET TARGET-USER TARGET-SECRET",
    ),
    (
        LineFault::SecretLength,
        "line 3: a secret has 12 to 128 bytes",
    ),
    (
        LineFault::UserTwice,
        "line 3: the host has a line with this user already",
    ),
    (
        LineFault::SecretOfHost { line: 1 },
        "line 3: the target has the secret of the host in line 1",
    ),
    (
        LineFault::SecretOfTarget { line: 2 },
        "line 3: the host has the secret of the target in line 2",
    ),
];

#[test]
fn faults_of_secrets_are_shown(rt: HostRuntime) {
    for (what, shown) in &ROWS {
        let fault = SecretsFault::Line {
            number: 3,
            what: *what,
        };
        let text = format!(in rt.alloc(); "{fault}").expect(&rt, "memory");
        assert_same(&rt, text.as_str(), *shown, "a fault shows no secret");
    }
}
