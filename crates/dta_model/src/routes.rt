// Routes over the links of a network.
ghost use Rattle.std.specs.Prelude.{◌≡◌, ◌<◌, length, slice_get, option_copied, Some};

use item_list::List;
use net_core::LinkNo;
use std::marker::Model;

/// Links to be entered one after another.
pub type Route = List<LinkNo>;

/// A route for each vehicle, or none, in the order of vehicles.
#[derive(Drop)]
pub struct Routes {
    routes: Vec<Option<Route>>,
}

impl Model for Routes {
    ghost use Rattle.net_core.specs.declared.rows.LinkNo.{LinkNo};
    ghost use Rattle.std.specs.Prelude.{List, Option};

    ghost Value = { List (Option (List LinkNo)) };

    ghost view = { λ r. r.routes.items };
}

impl Routes {
    /// These routes.
    pub fn of(routes: Vec<Option<Route>>) -> Self
        ensures { result ≡ routes.items }
    {
        Routes { routes }
    }

    /// The routes, lent.
    pub fn as_slice(&self) -> &[Option<Route>]
        ensures { result.now ≡ self.now }
    {
        self.routes.as_slice()
    }

    /// The routes, given away.
    pub fn into_vec(self) -> Vec<Option<Route>>
        ensures { result.items ≡ self }
    {
        self.routes
    }

    /// The route of a vehicle.
    pub fn get(&self, v: u32) -> Option<&Route>
        requires { v < length self.now }
        ensures { slice_get self.now v ≡ Some (option_copied result) }
    {
        self.routes[v as usize].as_ref()
    }
}
