//! Databases of which only some partitions are held.

ghost use Rattle.ss_model.specs.parts.HeldParts.{HeldPartsStay, HeldPartsAreEnough, BlanksStay, PartsAreAll, RunsBesideBlanks, UntouchedStay};
ghost use Rattle.ss_model.specs.parts.SplitParts.{SplitsOnce, SplitsDetermine};

/// The part of a partition that is held has no blanks.
pub fn held_parts_stay()
    ensures { HeldPartsStay }
{}

/// An entry whose partitions are held has the same effect beside blanks as on the whole database.
pub fn held_parts_are_enough()
    ensures { HeldPartsAreEnough }
{}

/// What such an entry leaves beside blanks is, part by part, what it leaves of the whole database, with the same blanks.
pub fn blanks_stay()
    ensures { BlanksStay }
{}

/// The parts of a database are all that there is of it but for its streams.
pub fn parts_are_all()
    ensures { PartsAreAll }
{}

/// What such an entry comes to beside blanks is what it comes to on the whole database, with the same blanks: the same
/// outcome and batches, the same streams, and of contents, counts and next numbers what is of the held partitions.
pub fn runs_beside_blanks()
    ensures { RunsBesideBlanks }
{}

/// An entry that touches no partition that is held leaves what is held as it was, but for the streams.
pub fn untouched_stay()
    ensures { UntouchedStay }
{}

/// Each row, window, count and next number of a database stands in the part of one partition that runs, and in no other.
pub fn splits_once()
    ensures { SplitsOnce }
{}

/// Two databases whose parts are the same differ in their streams at most.
pub fn splits_determine()
    ensures { SplitsDetermine }
{}
