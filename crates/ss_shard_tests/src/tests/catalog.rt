//! The catalogue of the test.

ghost use Rattle.std.specs.Prelude.{IfSome};
ghost use Rattle.ss_model.specs.Accepted.{Accepted};

use serde_json::Value as Json;
use ss_model::Catalog;
use ss_nest::read_nested;
use std::alloc::Global;

/// A table that is split by its key, with an index; one that is on one part; a stream with a window behind it, on another; and
/// calls that touch the partition of an argument, one part, and all.
const TEXT: &str =
    r#"{"tables":[{"name":"acct","columns":[["id","int"],["owner","text"],["bal","int"]],"key":["id"],"by":"id","indexes":[["owner"]]},{"name":"total","columns":[["id","int"],["n","int"]],"key":["id"],"part":1}],"streams":[{"name":"ticks","columns":[["n","int"]]}],"windows":[{"name":"last","columns":[["n","int"]],"owner":"tick","unit":"rows","size":2,"slide":1}],"procedures":[{"name":"open","kind":"call","args":[["id","int"],["owner","text"],["bal","int"]],"touch":{"arg":"id"},"body":[{"sql":"INSERT INTO acct VALUES (:id, :owner, :bal)"}]},{"name":"count","kind":"call","touch":"all","body":[{"sql":"DELETE FROM total"},{"sql":"INSERT INTO total SELECT 1, COUNT(*) FROM acct"}]},{"name":"walk","kind":"call","touch":"all","body":[{"return":"SELECT id FROM acct"}]},{"name":"of","kind":"call","args":[["owner","text"]],"touch":"all","body":[{"return":"SELECT id FROM acct WHERE owner = :owner"}]},{"name":"sum","kind":"call","touch":{"part":1},"body":[{"return":"SELECT n FROM total"}]},{"name":"tick","kind":"border","inputs":["ticks"],"touch":{"part":3},"body":[{"sql":"INSERT INTO last SELECT n FROM ticks"}]}]}"#;

/// The catalogue, or None without memory.
pub(crate) fn catalog(alloc: Global) -> Option<Catalog>
    ensures { IfSome result Accepted }
{
    let value = Json::from_str(alloc, TEXT).ok()?;
    read_nested(alloc, value).ok()
}
