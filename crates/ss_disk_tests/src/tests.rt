//! What stands behind steps, as a person decides it from the rules.

mod crashes;
mod folders;
mod runs;
mod steps;
