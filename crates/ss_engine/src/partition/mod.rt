//! Those who run the work of partitions: what waits in an inbox is taken, a job is served and a hint followed, and hints are put
//! of what may be ready then. `pump` calls `serve` and `follow`, and these call the others; `touched` and `least` answer a
//! client's `submit` too.

mod follow;
mod hands;
mod least;
mod pump;
pub(crate) mod pumped;
mod serve;
mod touched;
mod wake;
