mod hosts;
mod sessions;
mod splitting;
mod streams;

use crate::comparing::assert_same;
pub(crate) use sessions::Empty;
