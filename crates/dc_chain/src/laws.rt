//! Laws about concentrators in a row. Each function does nothing: its contract is the law.

ghost use Rattle.std.specs.Prelude.{◌≡◌, ℕ};
ghost use Rattle.std.specs.List.{Contains};
ghost use Rattle.dc_chain.specs.Concentrators.{sends_of};
ghost use Rattle.dc_chain.specs.Chains.{longest_way, ComesIn};
ghost use Rattle.dc_chain.specs.Laws.{ChainsKeepClaims, IsCertifiedChain, SourcesFollow, SourcesStayAlive, TwoInARow, UsableThrough, WordsComeFrom};
ghost use Rattle.dc_chain.specs.SmallChain.{small_concentrator, small_stages};

/// What a concentrator keeps of its intervals, the streams of the next one keep.
pub fn sources_follow()
    ensures { SourcesFollow }
{}

/// A word that leaves a chain is no computed data, or came to it not too long ago.
pub fn words_come_from()
    ensures { WordsComeFrom }
{}

/// Each concentrator of a chain of certified ones keeps its claims.
pub fn chains_keep_claims()
    ensures { ChainsKeepClaims }
{}

/// What leaves the second of two in a row came to the first less than both stays and the link's latency ago.
pub fn two_in_a_row()
    ensures { TwoInARow }
{}

/// A link that loses nothing keeps a stream alive.
pub fn sources_stay_alive()
    ensures { SourcesStayAlive }
{}

/// The longest way of a word through two small concentrators, in microseconds. They are a certified chain, and a word that
/// comes to the first at 0 leaves the second at 700: so the theorems on chains are not empty.
pub fn longest_way_of_the_small_chain() -> u32
    ensures certified { IsCertifiedChain (small_concentrator 700) small_stages }
    ensures comes { ComesIn (small_concentrator 700) small_stages 0 0x600000C1 }
    ensures leaves { Contains (sends_of (small_concentrator 700) 0) (700, (0, 0x600000C1)) }
    ensures value { result ≡ longest_way (small_concentrator 700) small_stages }
    ensures number { result ≡ 50700 }
{
    50_700
}

/// Usable words of one concentrator make usable words of the next.
pub fn usable_through()
    ensures { UsableThrough }
{}
