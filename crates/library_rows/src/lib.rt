//! Worked rows of what only a call shows: of records and a tape, of replays, of lasting media, of threads at one library, and of sessions at a
//! socket and a portal. What the program shows stands in `script_cases` and in scripts, and what follows from an exact contract beside it.
#![tactic(auto)]

#[cfg(test)]
mod comparing;
#[cfg(test)]
mod iscsi;
#[cfg(test)]
mod media;
#[cfg(test)]
mod socket_sessions;
#[cfg(test)]
mod tests;
#[cfg(test)]
mod threads;
#[cfg(test)]
mod trickle;
