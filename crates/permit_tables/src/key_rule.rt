/// The rules on keys by which a command conflicts though its cell of the permission table allows it
/// (SPC-4, "PERSISTENT RESERVE OUT command"). They are tested in this order.
#[derive(Clone, Copy)]
pub enum KeyRule {
    /// REGISTER that names a nexus that isn't registered, with a reservation key that isn't 0.
    K1,
    /// REGISTER that names a registered nexus, with a reservation key that isn't that nexus's.
    K2,
    /// Any act but REGISTER and REGISTER AND IGNORE EXISTING KEY by a sender that isn't registered or
    /// whose reservation key isn't its own.
    K3,
    /// RESERVE by a holder with another scope or type.
    K4,
    /// PREEMPT or PREEMPT AND ABORT of a key that isn't 0 and nobody's.
    K5,
    /// REGISTER AND MOVE under an all registrants type.
    K6,
}
