//! What a client asks of an engine: it hands requests in, waits for their answers, asks for receipts of these, and makes
//! checkpoints between requests. `session/threads` calls `requests` in each client's thread, `requests` calls `checkpoint`,
//! `submit` and `receipt`, `submit` calls `touched` of the folder `partition`, and `send`; `checkpoint` calls `hands` there.

mod checkpoint;
mod receipt;
pub(crate) mod requests;
mod send;
mod submit;
