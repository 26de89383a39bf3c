use crate::outgoing::Outgoing;

/// What a step of a station comes to. The frames are to be sent in their order.
#[derive(Debug, Drop)]
pub enum Reply {
    /// Nothing changed, and there is nothing to send.
    Nothing,
    /// Something changed, or something is to be sent.
    Done(Vec<Outgoing>),
    /// What came was refused, by this number. Nothing changed, unless it is one that closes the link.
    Refused(u16, Vec<Outgoing>),
}
