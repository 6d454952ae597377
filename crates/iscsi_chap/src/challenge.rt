/// What an initiator is asked to answer under CHAP. It comes from outside, a new one for each login (RFC 7143, "CHAP
/// Considerations").
#[derive(Clone, Copy)]
pub struct Challenge {
    pub identifier: u8,
    pub bytes: [u8; 32],
}
