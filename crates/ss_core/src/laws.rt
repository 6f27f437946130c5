//! Laws of the machine, each the contract of a function that does nothing.

ghost use Rattle.ss_core.specs.Crashes.{CrashesLeaveCounts};

/// A crash leaves one of the counts that it may leave, and each of them is left by some crash; so what the theorem says of
/// these counts it says of what crashes leave, and of nothing else.
pub fn crashes_leave_counts()
    ensures { CrashesLeaveCounts }
{}
