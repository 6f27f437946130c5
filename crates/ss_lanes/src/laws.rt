//! Laws of lanes, each the contract of a function that does nothing, which sessions cite.

ghost use Rattle.ss_lanes.specs.Served.{LanesServe};

/// The list that a lane knows has of its client just the entries that its answers to all requests so far report.
pub fn lanes_serve()
    ensures { LanesServe }
{}
