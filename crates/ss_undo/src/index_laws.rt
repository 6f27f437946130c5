//! What the indexes of a table hold, change by change, forward and back. A law does nothing.

ghost use Rattle.ss_undo.specs.IndexLaws.{HoldAtFirst, InsertAdds, DeleteLeaves, ReplaceAddsAndNotes, AmendLeaves};
ghost use Rattle.ss_undo.specs.IndexLaws.{InsertGoesBack, DeleteGoesBack, ReplaceGoesBack, AmendGoesBack, PurgeDrops, NoteDrops, RowsAreThere};

/// Indexes without a pair, of the parts of a table without a row, hold its pairs.
pub fn hold_at_first()
    ensures { HoldAtFirst }
{}

/// Where a row is inserted, its pairs are added; where one is deleted, its pairs stay; and where one is replaced, the
/// pairs of the new one are added and the old one is noted, or stay where both rows have the same.
pub fn changes_are_followed()
    ensures insert { InsertAdds }
    ensures delete { DeleteLeaves }
    ensures replace { ReplaceAddsAndNotes }
    ensures amend { AmendLeaves }
{}

/// Where a change is rolled back, the pairs of the row that comes out are dropped, if one does, unless they are those of the
/// row that is put back.
pub fn changes_go_back()
    ensures insert { InsertGoesBack }
    ensures delete { DeleteGoesBack }
    ensures replace { ReplaceGoesBack }
    ensures amend { AmendGoesBack }
{}

/// Where a change is made final, the pairs of the row that is freed are dropped, if one is.
pub fn changes_get_final()
    ensures delete { PurgeDrops }
    ensures replace { NoteDrops }
{}

/// Every live row has its pair in each index.
pub fn rows_are_there()
    ensures { RowsAreThere }
{}
