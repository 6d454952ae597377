use crate::comparing::{assert_list, assert_same};

mod portals;
mod replays;
mod tapes;
mod unused_calls;
