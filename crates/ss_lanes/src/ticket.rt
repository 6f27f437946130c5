//! The three numbers by which a reply is tied to its request: a value, which the client's `send` puts into its job, `reply`
//! gives back, and `own` compares with the lane's.

/// The numbers that go out with a request and come back with its reply.
#[derive(Clone, Copy, Drop)]
pub struct Ticket {
    /// The client's number.
    pub client: u8,
    /// The request's number among those of its client, from 0.
    pub index: u64,
    /// How many entries of the client stand in the list that its mark knows.
    pub count: u64,
}
