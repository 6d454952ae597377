mod beside;
mod held;
mod keepers;
mod pdus;
mod refused_resets;
mod scripts;
mod secrets;
mod told;

use crate::comparing::{assert_list, assert_same};
