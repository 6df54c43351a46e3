//! The statuses of calls that take a query.

ghost use Rattle.std.specs.Prelude.{◌≡◌};
ghost use Rattle.birchagain_c.specs.Statuses.{status_after_query};

use crate::statuses::DONE;
use birchagain_queries::QueryRefusal;

/// The status of a call that was refused, or wasn't: never that of an empty handle.
pub(crate) fn status_after_query(done: Result<(), QueryRefusal>) -> u32
    ensures { result ≡ status_after_query done }
{
    match done {
        Ok(()) => DONE,
        Err(refusal) => refusal.status(),
    }
}
