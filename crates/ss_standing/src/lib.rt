//! What an image of a disk stands for, and that this is one thing.
//!
//! A disk holds a generation: an image, which is what is kept of a database as bytes, and groups of entries behind it.
//! It stands for so many executions and for what is kept of the database after them, which is what replaying the entries
//! on a database with that image gives. An empty disk stands for none, and the empty database.
//!
//! What a disk stands for is a relation, since an image tells of a database only what is kept of it, and since entries
//! tell no outcomes. The laws say that it is one thing all the same: whoever recovers from an image, by whatever
//! database with that image, gets what the store had.
//!
//! - `laws`: each is the contract of a function that does nothing. `proofs/worked/Premises` and
//!   `proofs/worked/Checkpoint` meet their premises at a small store, and `proofs/worked/Needed` shows that the law of
//!   images needs its own
//!
//! The definitions are `specs/Image`, how an image spells what is kept of a database; `specs/FitsImage`, what an image has
//! room for; `specs/Readers`, how bytes are read part by part; `specs/ImageForm`, how an image is; `specs/Standing`, what
//! files stand for; `specs/Behind`, entries behind those that a generation has; `specs/Keeping`, what stands of a list
//! while it grows; and `specs/Checkpoints`, what a generation in place of another stands for.
//!
//! # Promises
//!
//! - What is kept of a whole database is told by its image (`an_image_tells_what_is_kept`), and a list on a database by
//!   its entries (`entries_tell_a_list`). So an image of a disk stands for one count and for one kept
//!   (`stands_for_one`), and for something of catalogues with one text alone (`stands_for_one_text`). The count is that
//!   of the log, and its receipts are for executions (`counts_are_executions`, `log_receipts_tell`), and what stays from
//!   moment to moment is executions too (`kept_counts_stand_on`, `one_thing_stands_on`).
//! - Entries that replay, behind a generation, stand for the place after them (`generations_go_on`, `behind_goes_on`),
//!   and the first entries of a list for that front of it (`fronts_stand`).
//! - What a crash leaves in a format of a strong store stands for the empty database (`forming_stands`), and in a flush
//!   for a front of what is flushed (`flushes_leave_fronts`, `prefixes_go_on`), which ends behind what is receipted
//!   (`receipts_bound_fronts`). A flush that is done leaves what stands for all of the list (`flushes_keep`).
//! - Bytes are read as what is kept of one database at most, and the image of a database as what is kept of it
//!   (`images_are_exact`).
//! - A checkpoint stands for its place, and what a crash leaves while it is written stands for what stood before it
//!   (`checkpoints_stand`), so what stands of a list goes on over it (`lists_stand_over_checkpoints`).
//!
//! # Choices
//!
//! - The database of an image is whole, has had at most as many batches in each stream as there were executions, and
//!   fits the image (`IsImageAt`), instead of being any of which the bytes spell what is kept. Without that bytes stand
//!   for several things: 2^64 and 0 have one spelling, two tables with the same rows at other keys have one, and next
//!   numbers of a stream that is no border stream have none. And what is spelled needn't be bytes: a source of 300 bytes
//!   would begin with a length that no byte has, and no reader could read it again, so sources are names. Of the
//!   databases that a list reaches the first two are laws (`whole_databases_stay`, `batches_are_bounded` of
//!   `ss_model_laws`); the third is what the program's types hold, of sources `Sources` of `ss_shard`
//!   (`sources_are_names`).
//! - What fits an image is said of what is kept (`FitsImage`), instead of the database, because batches and units that
//!   were dropped are in no image, and a recovered database needn't have them. How many units of a window are kept
//!   isn't bounded, though an image gives their number in four bytes, because it follows from how many there have been.
//! - Whether an image has bodies is told by the generation around it, which is of the new form or of the older one, and not by
//!   its own bytes: so each definition takes the form. An image of the older form is one of procedures with their own bodies
//!   (`FitBodies`), instead of one that tells nothing of bodies, since what files stand for is then one thing in both forms.
//! - How an image is read is data (`Reader`), a few small readers put together (`kept_in`), instead of a relation between
//!   bytes and what is kept. So each rule stands at the field that tells it, whoever reads the image by a program has a
//!   definition for each part, and that reading is exact (`IsExact`) is one lemma for each way to put readers together.
//! - Where several fields are tied, the rule stands in the test of the last of them: a stream's first kept batch is
//!   judged at the count of the last procedure that takes the stream (`goes_with`). So the first byte that can't be is
//!   known as soon as it is read.
//! - A generation stands for something where its log is strong (`Replayed`), since a weak one has no steps: what its
//!   entries come to is told by running the steps again, instead of by replaying what stands there. What it is read as
//!   is told in `ss_fronts`.
//! - Entries behind a generation aren't asked to be typed (`IsBehind`): a group has typed entries alone, so a
//!   generation which files stand for has no others.
#![tactic(auto)]

mod laws;

pub use laws::{
    an_image_tells_what_is_kept, behind_goes_on, checkpoints_stand, counts_are_executions,
    entries_tell_a_list, flushes_keep, flushes_leave_fronts, forming_stands, fronts_stand,
    generations_go_on, images_are_exact, kept_counts_stand_on, lists_stand_over_checkpoints,
    log_receipts_tell, one_thing_stands_on, prefixes_go_on, receipts_bound_fronts, stands_for_one,
    stands_for_one_text,
};
