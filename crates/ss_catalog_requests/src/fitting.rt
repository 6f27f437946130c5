//! Whether a request's values fit what it names.

ghost use Rattle.std.specs.Prelude.{◌≡◌, []};
ghost use Rattle.std.specs.List.{list_all};
ghost use Rattle.ss_value.specs.Fit.{fits_schema};
ghost use Rattle.ss_model.specs.Database.{stream_schema};
ghost use Rattle.ss_catalog_requests.specs.Targets.{procedure_args};
ghost use Rattle.ss_catalog_requests.specs.Fitting.{fitting_row, fitting_rows};

use ss_model::Catalog;
use ss_value::{Row, Rows, Schema, fits};

fn fits_call(catalog: &Catalog, procedure: usize, args: &Row) -> bool
    ensures { result ≡ fits_schema (procedure_args catalog.now procedure) args.now }
{
    match catalog.procedures.get(procedure) {
        Some(found) => fits(&found.args, args),
        None => args.len() == 0,
    }
}

/// The arguments, where they are there and fit the procedure of this number.
pub(crate) fn fitting_args(catalog: &Catalog, procedure: usize, args: Option<Row>) -> Option<Row>
    ensures { result ≡ fitting_row (procedure_args catalog.now procedure) args }
{
    match args {
        Some(args) => {
            if fits_call(catalog, procedure, &args) {
                Some(args)
            } else {
                None
            }
        }
        None => None,
    }
}

fn all_fit(schema: &Schema, rows: &[Row]) -> bool
    ensures { result ≡ list_all (fits_schema schema.now) rows.now }
{
    rows.iter().all(|row| fits(schema, row))
}

fn all_empty(rows: &[Row]) -> bool
    ensures { result ≡ list_all (fits_schema []) rows.now }
{
    rows.iter().all(|row| row.len() == 0)
}

fn fit_stream(catalog: &Catalog, stream: usize, rows: &[Row]) -> bool
    ensures { result ≡ list_all (fits_schema (stream_schema catalog.now stream)) rows.now }
{
    match catalog.streams.get(stream) {
        Some(found) => all_fit(&found.schema, rows),
        None => all_empty(rows),
    }
}

/// The rows, where they are there and each fits the stream of this number.
pub(crate) fn fitting_rows(catalog: &Catalog, stream: usize, rows: Option<Rows>) -> Option<Rows>
    ensures { result ≡ fitting_rows (stream_schema catalog.now stream) rows }
{
    match rows {
        Some(rows) => {
            if fit_stream(catalog, stream, rows.as_slice()) {
                Some(rows)
            } else {
                None
            }
        }
        None => None,
    }
}
