//! One client alone, none of whose pushes is accepted.

ghost use Rattle.ss_run_laws.specs.OneClient.{OneClientInOrder, OneClientOneReport};

/// A list of one client's requests, which begins where no step is pending and accepts no push, has no step, and its
/// entries are the requests in their order, but for those that it leaves out.
pub fn one_client_in_order()
    ensures { OneClientInOrder }
{}

/// Where such a list leaves no request out, each list of the same requests that leaves none out, from a database of which
/// the same is kept, is the same list, and the report of a whole run is the same.
pub fn one_client_one_report()
    ensures { OneClientOneReport }
{}
