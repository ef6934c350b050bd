ghost use Rattle.std.specs.Prelude.{◌≡◌, ◌<◌, length};
ghost use Rattle.pt_net.specs.Instances.{row_of};
ghost use Rattle.pt_net.specs.Systems.{instance_at, places, size};
ghost use Rattle.trap_siphon.specs.Siphons.{is_siphon, keeps_siphon, keeps_trap, touches};

use crate::sets::PlaceSet;
use pt_net::{PtNet, Side};

// Whether a row of an instance has some of the places of the set.
fn touches(net: &PtNet, set: &PlaceSet, side: Side, instance: u32) -> bool
    requires instance { instance < size net.now }
    requires set { length set.now ≡ places net.now }
    ensures { result ≡ touches net.now set.now (row_of side (instance_at net.now instance)) }
{
    for cell in net.cells(side, instance) {
        if set.has(cell.at) {
            return true;
        }
    }
    false
}

/// Whether the instance takes nothing from the set or puts something into it: then it leaves a
/// marked set marked.
pub fn trap_true(net: &PtNet, instance: u32, set: &PlaceSet) -> bool
    requires instance { instance < size net.now }
    requires set { length set.now ≡ places net.now }
    ensures { result ≡ keeps_trap net.now set.now instance }
{
    !touches(net, set, Side::Pre, instance) || touches(net, set, Side::Post, instance)
}

// Whether the instance puts nothing into the set or takes something from it.
fn siphon_true(net: &PtNet, instance: u32, set: &PlaceSet) -> bool
    requires instance { instance < size net.now }
    requires set { length set.now ≡ places net.now }
    ensures { result ≡ keeps_siphon net.now set.now instance }
{
    !touches(net, set, Side::Post, instance) || touches(net, set, Side::Pre, instance)
}

/// Whether every instance that puts into the set takes from it: then no firing marks an empty set.
pub fn is_siphon(net: &PtNet, set: &PlaceSet) -> bool
    requires { length set.now ≡ places net.now }
    ensures { result ≡ is_siphon net.now set.now }
{
    for instance in 0..net.instances() {
        if !siphon_true(net, instance, set) {
            return false;
        }
    }
    true
}
