//! Laws of the catalogue that an outline resolves to, by which `ss_catalog` shows that what passes all checks is accepted.
//!
//! Where the outline has no duplicate and no unknown names, and its counts are within their limits, the catalogue has
//! the form of an accepted one (`specs/Form`), and all its SQL is well typed and names only what it may (`specs/Sql`).
//! Each law is the contract of a function that does nothing.
#![tactic(auto)]

ghost use Rattle.ss_catalog_laws.specs.Form.{ResolvedHasForm};
ghost use Rattle.ss_catalog_laws.specs.Sql.{ResolvedIsTyped};

/// An outline that is read from a value, without duplicate and unknown names and with its counts within their limits,
/// resolves only to catalogues that have the form of an accepted one.
pub fn resolved_has_form()
    ensures { ResolvedHasForm }
{}

/// An outline without unknown names and with its counts within their limits resolves only to catalogues whose SQL is
/// well typed and in scope.
pub fn resolved_is_typed()
    ensures { ResolvedIsTyped }
{}
