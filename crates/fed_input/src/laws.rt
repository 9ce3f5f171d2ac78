//! Laws over definitions alone.

ghost use Rattle.fed_input.specs.Wholes.{CallsOfTheWhole, RunsOfTheWhole};

use stream_answers::Outlet;
use vol_sector::Device;

/// A law: a call of WASI over input that goes on is the call over all its bytes, however they were cut, unless it was starved. It
/// gives the same answer, changes the same memory, and moves the volume, the descriptors and the other streams as that one does.
pub fn calls_of_the_whole<D: Device, W1: Outlet, W2: Outlet>()
    ensures { CallsOfTheWhole D.honest D.disk D.size D.failures D.goes_on W1.contents W2.contents
        (record { moved = W1.took; refused = W1.refused }) (record {
          moved = W2.took;
          refused =
              W2.refused;
        }) }
{}

/// A law: so is a run of any guest. It takes the same steps and the same units, and its calls are answered alike.
pub fn runs_of_the_whole<D: Device, W1: Outlet, W2: Outlet>()
    ensures { RunsOfTheWhole D.honest D.disk D.size D.failures D.goes_on W1.contents W2.contents
        (record { moved = W1.took; refused = W1.refused }) (record {
          moved = W2.took;
          refused =
              W2.refused;
        }) }
{}
