//! The depth-first search through all orders.
ghost use Rattle.std.specs.Prelude.{◌≡◌, ℕ, ◌+◌, ◌<◌, ◌≤◌, Err, get_or, length, ◌++◌, List, ◌∷◌, [], All, true, false, is_some, IfOk, IfSome, OnOk, OnErr};
ghost use Rattle.l4_merges.specs.Orders.{IsOver, IsComplete, IsSound, AreDistinct, CountsOrders, Visits, FindsOn};
ghost use Rattle.l4_merges.specs.Graphs.{IsFoundAt, HasOutcomeAt, IsPlacedAt, IsNoted, Grows, AreExplored, IsGraph, AreToldApart};
ghost use Rattle.l4_merges.specs.Inside.Tables.{IsNotKnown, IsIndex, IsIndexed, VisitsNew};

use crate::found::Found;
use crate::graph::{Edge, Seen};
use crate::machine::{Failure, Machine};
use crate::table::{Table, digest_of};
use crate::watching::Watch;
use l4_naturals::Natural;
use std::alloc::{AllocError, Global};

/// Why a search ended before it had followed every order.
#[derive(Clone, Copy, Debug, PartialEq, Eq)]
pub enum GaveUp {
    /// It reached the largest number of states that it was allowed to visit.
    Bound,
    /// An allocation failed.
    Memory,
    /// A limit of the machine is reached.
    Full,
}

/// The result of a search.
#[derive(Drop)]
pub struct Explored {
    /// The outcomes that were found.
    pub found: Vec<Found>,
    /// The number of states that were visited.
    pub states: u64,
    /// The number of orders, if every order was followed.
    pub orders: Natural,
    /// The graph of the states, if every order was followed. An edge leads to an earlier place.
    pub seen: Vec<Seen>,
    /// The place of the first state in the graph, if every order was followed.
    pub start: usize,
    /// Whether every order was followed, and if not, why.
    pub ended: Result<(), GaveUp>,
}

/// Returns why a search ends if the machine fails.
pub(crate) fn given_up(failure: Failure) -> GaveUp
    ensures { result ≡ GaveUp.Bound → ⊥ }
{
    match failure {
        Failure::Memory => GaveUp::Memory,
        Failure::Full => GaveUp::Full,
    }
}

/// A search: what was found so far, the keys of the states from which everything was searched, the path to the current state, and the number
/// of states that may still be visited. The table leads from the digest of a key to places in `seen`.
#[derive(Drop)]
struct Search {
    found: Vec<Found>,
    seen: Vec<Seen>,
    table: Table,
    path: Vec<usize>,
    budget: u64,
}

/// Returns the place of this outcome, if it was found.
pub(crate) fn found_at(found: &[Found], outcome: &[u8]) -> Option<usize>
    ensures place { IfSome result (IsFoundAt found.now outcome.now) }
    ensures new { is_some result ≡ false → All (λ one. one.outcome.items ≡ outcome.now → ⊥) found.now }
{
    for place in 0..found.len() {
        if found[place].outcome.as_slice() == outcome {
            return Some(place);
        }
    }
    None
}

/// Returns whether the state at this place has this key.
fn has_key(seen: &[Seen], place: usize, key: &[u32]) -> bool
    requires { place < length seen.now }
    ensures yes { result ≡ true → IsNoted seen.now key.now place }
    ensures no { result ≡ false → (one : Seen) → get_or seen.now place one ≡ one → one.key.items ≡ key.now → ⊥ }
{
    seen[place].key.as_slice() == key
}

/// Returns the place of the state with this key, if it was searched. Follows the table from the last place of its digest on.
fn known(seen: &[Seen], table: &Table, key: &[u32]) -> Option<usize>
    requires { IsIndex table.now seen.now }
    ensures place { IfSome result (IsNoted seen.now key.now) }
    ensures new { is_some result ≡ false → IsNotKnown seen.now key.now }
{
    let mut next = table.last(digest_of(key));
    for visited in 0..seen.len() {
        if next == 0 {
            return None;
        }
        if has_key(seen, next - 1, key) {
            return Some(next - 1);
        }
        next = table.before(next - 1);
    }
    None
}

/// Copies an order.
pub(crate) fn copied(alloc: Global, path: &[usize]) -> Result<Vec<usize>, AllocError>
    ensures { IfOk result (λ copy. copy.items ≡ path.now) }
{
    let mut copy = Vec::new(alloc);
    copy.extend_from_slice(path)?;
    Ok(copy)
}

/// Removes the last turn from the path.
fn step_back(path: &mut Vec<usize>)
    ensures { (front : List ℕ) (last : ℕ) → path.old.items ≡ front ++ last ∷ [] → path.new.items ≡ front }
{
    let _ = path.pop();
}

/// Notes the outcome of a state in which no thread is enabled, unless it was found before. Returns its place.
fn note_outcome<M: Machine>(alloc: Global, state: &M, search: &mut Search) -> Result<usize, GaveUp>
    requires { IsOver M.enabled state.now }
    ensures found { IfOk result (HasOutcomeAt M.HasOutcome state.now search.new.found.items) }
    ensures on { FindsOn M.enabled M.Turns M.HasOutcome search.old.path.items state.now search.old.found.items search.new.found.items }
    ensures seen { search.new.seen.items ≡ search.old.seen.items }
    ensures path { search.new.path.items ≡ search.old.path.items }
    ensures budget { search.new.budget ≡ search.old.budget }
    ensures table { search.new.table ≡ search.old.table }
    ensures bound { result ≡ Err GaveUp.Bound → ⊥ }
{
    let outcome = match state.outcome() {
        Ok(outcome) => outcome,
        Err(failure) => return Err(given_up(failure)),
    };
    if let Some(place) = found_at(search.found.as_slice(), outcome.as_slice()) {
        return Ok(place);
    }
    let Ok(order) = copied(alloc, search.path.as_slice()) else {
        return Err(GaveUp::Memory);
    };
    if search.found.reserve(1).is_err() {
        return Err(GaveUp::Memory);
    }
    let place = search.found.len();
    search.found.push_reserved(Found { outcome, order });
    Ok(place)
}

/// Notes the outcome of a state in which no thread is enabled. Returns its place, and the number of orders from the state, which is 1.
fn end_of<M: Machine>(
    alloc: Global,
    state: &M,
    search: &mut Search,
) -> Result<(usize, Natural), GaveUp>
    requires { IsOver M.enabled state.now }
    ensures found { IfOk result (λ r. HasOutcomeAt M.HasOutcome state.now search.new.found.items r.0) }
    ensures one { IfOk result (λ r. r.1 ≡ 1) }
    ensures on { FindsOn M.enabled M.Turns M.HasOutcome search.old.path.items state.now search.old.found.items search.new.found.items }
    ensures seen { search.new.seen.items ≡ search.old.seen.items }
    ensures path { search.new.path.items ≡ search.old.path.items }
    ensures budget { search.new.budget ≡ search.old.budget }
    ensures table { search.new.table ≡ search.old.table }
    ensures bound { result ≡ Err GaveUp.Bound → ⊥ }
{
    let place = match note_outcome(alloc, state, search) {
        Ok(place) => place,
        Err(why) => return Err(why),
    };
    match Natural::one(alloc) {
        Ok(one) => Ok((place, one)),
        Err(_) => Err(GaveUp::Memory),
    }
}

/// Notes a state from which everything was searched, and which was not noted before. Returns its place.
fn keep(one: Seen, search: &mut Search) -> Result<usize, GaveUp>
    requires indexed { IsIndexed search.old.table search.old.seen.items }
    requires new { IsNotKnown search.old.seen.items one.key.items }
    ensures seen { OnOk result (search.new.seen.items ≡ search.old.seen.items ++ one ∷ []) }
    ensures indexed { OnOk result (IsIndexed search.new.table search.new.seen.items) }
    ensures place { IfOk result (λ place. place ≡ length search.old.seen.items) }
    ensures found { search.new.found.items ≡ search.old.found.items }
    ensures path { search.new.path.items ≡ search.old.path.items }
    ensures budget { search.new.budget ≡ search.old.budget }
    ensures bound { result ≡ Err GaveUp.Bound → ⊥ }
{
    if !search.table.add(digest_of(one.key.as_slice())) {
        return Err(GaveUp::Memory);
    }
    if search.seen.reserve(1).is_err() {
        return Err(GaveUp::Memory);
    }
    let place = search.seen.len();
    search.seen.push_reserved(one);
    Ok(place)
}

/// Adds a turn to the path. Returns false if there is not enough memory.
pub(crate) fn push_turn(path: &mut Vec<usize>, thread: usize) -> bool
    ensures { result ≡ true → path.new.items ≡ path.old.items ++ thread ∷ [] }
{
    if path.reserve(1).is_err() {
        return false;
    }
    path.push_reserved(thread);
    true
}

/// Adds an edge for the thread's turn in a state, which leads to the state at this place. Returns false if there is not enough memory.
fn add_edge<M: Machine>(state: &M, thread: usize, to: usize, edges: &mut Vec<Edge>) -> bool
    ensures { result ≡ true
        → edges.new.items
        ≡ edges.old.items
        ++ (record { thread = thread; name = M.name state.now thread; to = to }) ∷ [] }
{
    if edges.reserve(1).is_err() {
        return false;
    }
    let name = state.name(thread);
    edges.push_reserved(Edge { thread, name, to });
    true
}

/// Adds the number of orders from the state at this place. Returns false if there is not enough memory.
fn add_orders(alloc: Global, seen: &[Seen], place: usize, orders: &mut Natural) -> bool
    requires { place < length seen.now }
    ensures { result ≡ true → (one : Seen) → get_or seen.now place one ≡ one → orders.new ≡ orders.old + one.orders }
{
    match orders.plus(alloc, &seen[place].orders) {
        Ok(sum) => {
            *orders = sum;
            true
        }
        Err(_) => false,
    }
}

/// Returns the entry of a state.
fn entry(key: Vec<u32>, orders: Natural, edges: Vec<Edge>, end: Option<usize>) -> Seen
    ensures { result ≡ record { key = key; orders = orders; edges = edges; end = end } }
{
    Seen {
        key,
        orders,
        edges,
        end,
    }
}

/// Searches all orders from a state. Returns its place in the graph.
fn search_from<M: Machine, W: Watch>(
    alloc: Global,
    state: M,
    search: &mut Search,
    watch: &mut W,
) -> Result<usize, GaveUp>
    requires explored { AreExplored M.enabled M.Turns M.name M.HasOutcome M.HasKey (M.Akin state) search.old.seen.items search.old.found.items }
    requires indexed { IsIndexed search.old.table search.old.seen.items }
    ensures all { OnOk result (IsComplete M.enabled M.Turns M.HasOutcome state search.new.found.items) }
    ensures place { IfOk result (IsPlacedAt M.HasKey search.new.seen.items state) }
    ensures indexed { OnOk result (IsIndexed search.new.table search.new.seen.items) }
    ensures visits { OnErr result (VisitsNew M.enabled M.Turns M.HasKey state search.old.seen.items search.old.budget search.new.budget) }
    ensures grows { OnOk result (Grows M.enabled M.Turns M.HasKey state search.old.seen.items search.new.seen.items) }
    ensures explored { OnOk result (AreExplored M.enabled M.Turns M.name M.HasOutcome M.HasKey (M.Akin state) search.new.seen.items search.new.found.items) }
    ensures on { FindsOn M.enabled M.Turns M.HasOutcome search.old.path.items state search.old.found.items search.new.found.items }
    ensures path { OnOk result (search.new.path.items ≡ search.old.path.items) }
    ensures budget { OnOk result (search.new.budget + length search.new.seen.items
        ≡ search.old.budget + length search.old.seen.items) }
    ensures bound { result ≡ Err GaveUp.Bound → search.new.budget ≡ 0 }
{
    let key = match state.key() {
        Ok(key) => key,
        Err(failure) => return Err(given_up(failure)),
    };
    if let Some(place) = known(search.seen.as_slice(), &search.table, key.as_slice()) {
        return Ok(place);
    }
    if search.budget == 0 {
        return Err(GaveUp::Bound);
    }
    search.budget -= 1;
    let mut edges = Vec::new(alloc);
    let mut orders = Natural::zero(alloc);
    for thread in 0..state.threads() {
        if !state.enabled(thread) {
            continue;
        }
        let next = match state.after_turn(thread) {
            Ok(next) => next,
            Err(failure) => return Err(given_up(failure)),
        };
        if !push_turn(&mut search.path, thread) {
            return Err(GaveUp::Memory);
        }
        let place = match search_from(alloc, next, search, watch) {
            Ok(place) => place,
            Err(why) => return Err(why),
        };
        step_back(&mut search.path);
        if !add_orders(alloc, search.seen.as_slice(), place, &mut orders) {
            return Err(GaveUp::Memory);
        }
        if !add_edge(&state, thread, place, &mut edges) {
            return Err(GaveUp::Memory);
        }
    }
    watch.report(search.seen.len(), search.found.len());
    if edges.is_empty() {
        let noted = match end_of(alloc, &state, search) {
            Ok(noted) => noted,
            Err(why) => return Err(why),
        };
        return keep(entry(key, noted.1, edges, Some(noted.0)), search);
    }
    keep(entry(key, orders, edges, None), search)
}

/// Returns the result of a search that ended early.
fn ended_early(
    alloc: Global,
    found: Vec<Found>,
    states: u64,
    seen: Vec<Seen>,
    why: GaveUp,
) -> Explored
    ensures { result ≡ record { found = found; states = states; orders = 0; seen = seen; start = 0; ended = Err why } }
{
    Explored {
        found,
        states,
        orders: Natural::zero(alloc),
        seen,
        start: 0,
        ended: Err(why),
    }
}

/// Returns a copy of the number of orders from the state at this place.
fn orders_from(alloc: Global, seen: &[Seen], place: usize) -> Result<Natural, AllocError>
    requires { place < length seen.now }
    ensures { IfOk result (λ n. (one : Seen) → get_or seen.now place one ≡ one → n ≡ one.orders) }
{
    seen[place].orders.copy(alloc)
}

/// Searches all orders from a state, and visits at most `most` states. Returns the outcomes that it found, each once and with an order that
/// produces it. If the search ends by itself, an outcome of the end of each order was found, and the graph has all states that orders reach.
/// If it ends early, the outcomes that it found are still sound. The number of states is that of the different keys of the states that it visited.
/// It ends early at the bound only if it has visited `most` states.
pub fn explore<M: Machine, W: Watch>(alloc: Global, state: M, most: u64, watch: &mut W) -> Explored
    ensures sound { IsSound M.enabled M.Turns M.HasOutcome state result.found.items }
    ensures distinct { AreDistinct result.found.items }
    ensures orders { OnOk result.ended (CountsOrders M.enabled M.Turns state result.orders) }
    ensures complete { OnOk result.ended (IsComplete M.enabled M.Turns M.HasOutcome state result.found.items) }
    ensures graph { OnOk result.ended (IsGraph M.enabled M.Turns M.name M.HasOutcome state result.found.items result.seen.items result.start) }
    ensures apart { OnOk result.ended (AreToldApart result.seen.items) }
    ensures visits { Visits M.enabled M.Turns M.HasKey state result.states }
    ensures most { result.states ≤ most }
    ensures states { OnOk result.ended (result.states ≡ length result.seen.items) }
    ensures bound { result.ended ≡ Err GaveUp.Bound → result.states ≡ most }
{
    let mut search = Search {
        found: Vec::new(alloc),
        seen: Vec::new(alloc),
        table: Table::new(alloc),
        path: Vec::new(alloc),
        budget: most,
    };
    let searched = search_from(alloc, state, &mut search, watch);
    let Search {
        found,
        seen,
        table: _,
        path: _,
        budget,
    } = search;
    let states = most.saturating_sub(budget);
    let start = match searched {
        Ok(start) => start,
        Err(why) => return ended_early(alloc, found, states, seen, why),
    };
    let Ok(orders) = orders_from(alloc, seen.as_slice(), start) else {
        return ended_early(alloc, found, states, seen, GaveUp::Memory);
    };
    Explored {
        found,
        states,
        orders,
        seen,
        start,
        ended: Ok(()),
    }
}
