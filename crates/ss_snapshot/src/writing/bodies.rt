//! The bodies of the procedures.

ghost use Rattle.std.specs.Prelude.{◌≡◌, ◌++◌, true, OnOk};
ghost use Rattle.std.specs.List.{flat_map};
ghost use Rattle.ss_shard.specs.Bodies.{texts_of};
ghost use Rattle.ss_standing.specs.FitsImage.{FitBodies};
ghost use Rattle.ss_standing.specs.Image.{text_bytes};

use crate::text::push_text;
use crate::writing::numbers::short_count;
use ss_model::Catalog;
use ss_shard::Shard;
use ss_value::NoMemory;

/// Adds the text of the body that each procedure has, behind its length. More than 65,535 procedures, which have no numbers,
/// are reported as out of memory: no catalogue has as many.
pub(crate) fn push_bodies(
    out: &mut Vec<u8>,
    catalog: &Catalog,
    whole: &Shard,
) -> Result<(), NoMemory>
    ensures spelled { OnOk result (out.new.items ≡ out.old.items ++ flat_map text_bytes (texts_of catalog.now whole.now.bodies)) }
    ensures fits { OnOk result (FitBodies true catalog.now (texts_of catalog.now whole.now.bodies)) }
{
    let count = short_count(whole.bodies().len())?;
    for procedure in 0..count {
        push_text(out, whole.body_text(catalog, procedure))?;
    }
    Ok(())
}
