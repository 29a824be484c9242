//! Laws on judged networks. Each function does nothing: its contract is the law.

ghost use Rattle.dc_system.specs.Laws.{FaultsExclude};

/// Where a fault is found, the network does not stand.
pub fn faults_exclude()
    ensures { FaultsExclude }
{}
