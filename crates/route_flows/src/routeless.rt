// Vehicles without routes.
ghost use Rattle.std.specs.Prelude.{◌≡◌, ◌≤◌, length, count_by, is_none};

use dta_model::{MOST_TRIPS, Routes};

/// How many vehicles have no route.
pub fn unrouted(routes: &Routes) -> u32
    requires { length routes.now ≤ MOST_TRIPS }
    ensures { result ≡ count_by is_none routes.now }
{
    routes
        .as_slice()
        .iter()
        .filter(|route| route.is_none())
        .count() as u32
}
