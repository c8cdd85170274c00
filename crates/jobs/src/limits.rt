// The size of a loading.
ghost use Rattle.std.specs.Prelude.{◌<◌, ◌*◌, ◌↔◌, IsTrue, is_err};
ghost use Rattle.dta_model.specs.declared.loading.TheConstants.{MOST_LINK_STEPS};

use dta_model::MOST_LINK_STEPS;

/// A loading has too many links times steps.
#[derive(Clone, Copy, Debug, PartialEq, Eq)]
pub struct TooBig;

/// Checks that the links of a network times the steps of a run are not above 67,108,864. It takes
/// no memory.
pub fn sizes(links: u32, horizon: u32) -> Result<(), TooBig>
    ensures { IsTrue (is_err result) ↔ (MOST_LINK_STEPS < links * horizon) }
{
    if u64::from(links) * u64::from(horizon) > MOST_LINK_STEPS {
        Err(TooBig)
    } else {
        Ok(())
    }
}
