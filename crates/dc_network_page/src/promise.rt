//! What the yes says, and what it asks.

/// What is promised of each network that is accepted, and what has to be kept for it.
pub const PROMISE: &str = "<h2>What is promised</h2>
<p>In every run of all concentrators together that keeps what is asked below, whenever each was started:</p>
<ol>
<li>Each concentrator keeps the four claims of its certificate, in microseconds: no queue overruns, no word is too old, good sources
are used, each label keeps its interval.</li>
<li>Each word that leaves a label is no computed data, or has the data and the SSM of a word that came to a bus which no link feeds,
less than the label's way before.</li>
</ol>
<p>It asks:</p>
<ul>
<li><b>Links</b> bring what was sent to them, in order, none twice, within their least and most latency; they may lose words.</li>
<li><b>Buses that a link feeds</b> get nothing else: no second talker, and no word that the wire spoils into another one.</li>
<li><b>Buses that are not policed</b>, fed or not: two words are at least 350 microseconds apart (high speed) or 2,450 (low).</li>
<li><b>Streams</b> of buses that are not policed and that no link feeds keep min_us and jitter_us of their tables.</li>
<li><b>Routers and outputs</b> keep their budgets, and a tick lasts tick_us.</li>
</ul>
";
