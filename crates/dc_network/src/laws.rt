//! Laws about networks. Each function does nothing: its contract is the law.

ghost use Rattle.std.specs.Prelude.{◌≡◌};
ghost use Rattle.std.specs.List.{Contains};
ghost use Rattle.dc_chain.specs.Concentrators.{sends_of};
ghost use Rattle.dc_network.specs.Networks.{AreWays};
ghost use Rattle.dc_network.specs.JointRuns.{Enters, HaveClocks, IsJointRun, IsSound, running};
ghost use Rattle.dc_network.specs.Diamond.{diamond, diamond_ways, diamond_runs};
ghost use Rattle.dc_network.specs.Laws.{NetworksKeepClaims, WaysAreOne};

/// Each concentrator of a sound network keeps its claims, and no word is older than its label's way.
pub fn networks_keep_claims()
    ensures { NetworksKeepClaims }
{}

/// A sound network has ways, and no others.
pub fn ways_are_one()
    ensures { WaysAreOne }
{}

/// The longest way of a word through a small diamond, in microseconds. The diamond is sound, a joint run of it keeps all that
/// is asked, and a word that comes to its first concentrator at 0 leaves its last at 1,500: so the theorems on networks are
/// not empty.
pub fn longest_way_of_the_diamond() -> u32
    ensures sound { IsSound diamond }
    ensures ways { AreWays diamond diamond_ways }
    ensures clocks { HaveClocks diamond diamond_runs }
    ensures joint { IsJointRun diamond diamond_runs }
    ensures enters { Enters diamond diamond_runs 0 0x600000C1 }
    ensures leaves { Contains (sends_of (running diamond diamond_runs 3) 0) (1500, (0, 0x600000C1)) }
    ensures value { result ≡ diamond_ways 3 0 }
    ensures number { result ≡ 76500 }
{
    76_500
}
