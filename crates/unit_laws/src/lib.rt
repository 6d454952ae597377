//! Laws of persistent reservations, of one logical unit and of its trail, and worked rows.
#![tactic(auto)]

mod laws;
mod reservation_rows;
mod reservations;

pub use laws::{
    accepted_commands, answers_at_the_check, attentions, audit_shows_reservations, carried_or_not,
    carried_volumes, conflicts_at_the_check, decided_at_the_check, ends_of_exchanges,
    exchanged_volumes, judged_is_not_busy, legal_and_illegal_records, moves_keep_units,
    named_drives, numbers_of_calls, numbers_of_records, preventions, preventions_end,
    records_of_legal_trails, refused_exchanges, refused_media, refused_moves, reservation_check,
    told_attentions, trail_shows_history,
};
pub use reservation_rows::worked_rows;
pub use reservations::{
    generation_counts_acts, holder_is_registered, none_registered_under_all_registrants,
    only_these_end_a_reservation, reserve_takes_nothing,
};
