//! The way over a tape's objects.

ghost use Rattle.std.specs.Prelude.{◌≡◌, ◌≤◌, ◌<◌, length, slice_index_or};
ghost use Rattle.tape_medium.specs.Along.{in_way, edge_of, code_of, way_of};
ghost use Rattle.tape_medium.specs.Space.{way};
ghost use Rattle.tape_medium.specs.Tape.{is_mark};
ghost use Rattle.tape_medium.specs.Object.{Mark};

use crate::space::Stop;
use crate::store::Store;

/// How many objects counted and how many were passed, and why it stopped.
#[derive(Clone, Copy)]
pub(crate) struct Passage {
    pub(crate) counted: u32,
    pub(crate) over: usize,
    pub(crate) stop: Stop,
}

/// How many objects lie in the way.
fn reach(store: &Store, from: usize, back: bool) -> usize
    requires { from ≤ length store.now }
    ensures { result ≡ length (in_way store.now from back) }
{
    if back {
        return from;
    }
    store.len() - from
}

/// Whether the object in the way behind the first `over` is a filemark.
fn is_mark_in_way(store: &Store, from: usize, back: bool, over: usize) -> bool
    requires within { from ≤ length store.now }
    requires below { over < length (in_way store.now from back) }
    ensures { result ≡ is_mark (slice_index_or (in_way store.now from back) over Mark) }
{
    if back {
        return store.is_mark(from - 1 - over);
    }
    // Says to the prover alone that a place in the store is a number of 64 bits.
    let _count = store.len();
    store.is_mark(from + over)
}

/// Goes from `from` over `todo` filemarks with all between, or over `todo` blocks up to a filemark.
pub(crate) fn pass_objects(
    store: &Store,
    from: usize,
    back: bool,
    marks: bool,
    todo: u32,
) -> Passage
    requires { from ≤ length store.now }
    ensures value { way_of result ≡ way (code_of marks) (edge_of back) (in_way store.now from back) todo }
    ensures within { result.over ≤ length (in_way store.now from back) }
{
    let reach = reach(store, from, back);
    let mut counted = 0;
    for over in 0..reach {
        if counted == todo {
            return Passage {
                counted,
                over,
                stop: Stop::Done,
            };
        }
        let is_mark = is_mark_in_way(store, from, back, over);
        if is_mark == marks {
            counted += 1;
        } else if is_mark {
            return Passage {
                counted,
                over: over + 1,
                stop: Stop::AtMark,
            };
        }
    }
    if counted == todo {
        return Passage {
            counted,
            over: reach,
            stop: Stop::Done,
        };
    }
    Passage {
        counted,
        over: reach,
        stop: if back { Stop::AtStart } else { Stop::AtEnd },
    }
}
