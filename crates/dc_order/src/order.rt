ghost use Rattle.std.specs.Prelude.{◌≡◌, ℕ, ◌<◌, ◌≤◌, true, false, length, IfOk, MatchResult, slice_index, slice_index_or, slice_set, vec_len, ◌⊎◌};
ghost use Rattle.dc_order.specs.Rings.{AreNumbered, AreLed, IsMissing, IsOnRing, IsRingOf, IsTakenOn, IsThere, AreReached, IsOrder, IsRingFault, missing};

use crate::hop::Hop;
use std::alloc::{AllocError, Global};

/// Why there is no order.
#[derive(Debug, Drop)]
pub enum OrderError {
    /// This is the first concentrator that is on a ring.
    Ring(usize),
    /// Memory is out.
    Memory(AllocError),
}

/// The place of each concentrator, such that each link leads from an earlier place to a later one.
///
/// # Errors
/// `Ring` with the first concentrator that is on a ring; `Memory` where memory is out.
pub fn places(alloc: Global, count: usize, hops: &[Hop]) -> Result<Vec<usize>, OrderError>
    requires { AreNumbered count hops.now }
    ensures places { IfOk result (λ v. vec_len v ≡ count) }
    ensures few { IfOk result (λ v. (i : ℕ) → slice_index v.items i ≤ count) }
    ensures order { MatchResult result (λ v. IsOrder hops.now (λ i. slice_index v.items i)) (λ e. IsRingFault count hops.now e) }
{
    let mut places = match vec![in alloc; 0; count] {
        Ok(places) => places,
        Err(error) => return Err(OrderError::Memory(error)),
    };
    for i in 0..count {
        match place_of(alloc, count, hops, i) {
            Ok(place) => places[i] = place,
            Err(error) => return Err(error),
        }
    }
    Ok(places)
}

/// The place of one concentrator: how many there are to which no link leads from it.
fn place_of(alloc: Global, count: usize, hops: &[Hop], i: usize) -> Result<usize, OrderError>
    requires numbered { AreNumbered count hops.now }
    requires there { i < count }
    ensures { MatchResult result (λ n. IsMissing count hops.now i n × (IsOnRing hops.now i → ⊥)) (λ e. IsRingOf hops.now i e) }
{
    match reach(alloc, count, hops, i) {
        Ok(reached) => placed(&reached, i),
        Err(error) => Err(OrderError::Memory(error)),
    }
}

/// Its place, where it is not among those that are reached from it.
fn placed(reached: &[bool], i: usize) -> Result<usize, OrderError>
    requires { i < length reached.now }
    ensures { MatchResult result (λ n. (missing reached.now ≡ n) × (slice_index_or reached.now i true ≡ false)) (λ e. IsThere reached.now i e) }
{
    if reached[i] {
        return Err(OrderError::Ring(i));
    }
    Ok(missing_in(reached))
}

/// Which concentrators links lead to from this one.
fn reach(alloc: Global, count: usize, hops: &[Hop], start: usize) -> Result<Vec<bool>, AllocError>
    requires numbered { AreNumbered count hops.now }
    requires start { start < count }
    ensures { IfOk result (λ v. AreReached count hops.now start v.items) }
{
    let mut reached = vec![in alloc; false; count]?;
    let mut more = true;
    while more {
        more = round(hops, start, &mut reached);
    }
    Ok(reached)
}

/// Takes each link once. Answers whether any led to a new one.
fn round(hops: &[Hop], start: usize, reached: &mut [bool]) -> bool
    requires numbered { AreNumbered (length reached.old) hops.now }
    requires led { AreLed hops.now start reached.old }
    ensures led { AreLed hops.now start reached.new }
    ensures kept { missing reached.new ≤ missing reached.old }
    ensures more { result ≡ true → missing reached.new < missing reached.old }
    ensures done { result ≡ false → (k : ℕ) → k < length hops.now → IsTakenOn hops.now start reached.new k }
{
    let mut more = false;
    for hop in hops {
        if take(hop.from, hop.to, start, reached) {
            more = true;
        }
    }
    more
}

/// Takes one link. Answers whether it led to a new one.
fn take(from: usize, to: usize, start: usize, reached: &mut [bool]) -> bool
    requires from { from < length reached.old }
    requires to { to < length reached.old }
    ensures new { result ≡ true → (reached.new ≡ slice_set reached.old to true) × (slice_index_or reached.old to true ≡ false) × ((from ≡ start) ⊎ (slice_index_or reached.old from true ≡ true)) }
    ensures same { result ≡ false → (reached.new ≡ reached.old) × (((from ≡ start) ⊎ (slice_index_or reached.old from true ≡ true)) → slice_index_or reached.old to true ≡ true) }
{
    if reached[to] {
        return false;
    }
    if from == start {
        reached[to] = true;
        return true;
    }
    if reached[from] {
        reached[to] = true;
        return true;
    }
    false
}

/// How many are false.
fn missing_in(reached: &[bool]) -> usize
    ensures { result ≡ missing reached.now }
{
    let mut count: usize = 0;
    for is in reached {
        if !*is {
            count += 1;
        }
    }
    count
}
