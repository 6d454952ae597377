//! Threads over a library of a changer and drives: each scene is played in one that is opened for it and closed behind it.

mod asking;
mod days;
mod gates;
mod opened;
mod parts;
mod playing;
mod scenes;
mod settling;
mod targets;
mod unclosed;

use crate::comparing::assert_same;
use days::run;
use gates::{Flags, TestGate};
use playing::Plan;
use scenes::{SCENES, plan_at};
use std::process::Abort;
use std::sync::Wait;
use std::sync::atomic::Ordering;
use std::thread::Threads;
use std::time::Clock;

/// The gate was passed once if it holds a unit, and meanwhile the other unit was not held.
fn assert_gate(rt: &impl Abort, flags: &Flags, plan: &Plan) {
    let entered = flags.entered.load(Ordering::SeqCst);
    let ran_out = flags.ran_out.load(Ordering::SeqCst);
    let expected = (u64::from(plan.holds), false);
    assert_same(rt, (entered, ran_out), expected, plan.shows);
}

/// Plays the scene at a place among them all.
fn play<R: Abort + AllocGlobal + Clock + Threads + Wait + Sync>(
    rt: &R,
    clock: &HostRuntime,
    scene: usize,
) {
    let plan = plan_at(scene);
    let flags = Flags::new();
    let gate = TestGate {
        clock,
        flags: &flags,
        holds: plan.holds,
    };
    run(rt, rt.alloc(), gate, &flags, scene);
    assert_gate(rt, &flags, &plan);
}

#[test]
fn scenes_at_a_library_leave_what_they_must(rt: HostRuntime) {
    for scene in 0..SCENES.len() {
        play(&rt, &rt, scene);
    }
}
