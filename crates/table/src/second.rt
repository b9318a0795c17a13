// The second side of a comparison, held against the stored first: its nodes come one by one and are never stored. A power waits until it is
// known that nothing merges with it.
ghost use Rattle.std.specs.Prelude.{◌≡◌, ◌+◌, ◌%◌, ◌<◌, ◌≤◌, ◌^◌, [], ◌∷◌, length};
ghost use Rattle.patterns.specs.Term.{npow};
ghost use Rattle.table.specs.Nodes.{node_of, node_at, load};
ghost use Rattle.table.specs.Sides.{node_told, Coded, Room};
ghost use Rattle.table.specs.Places.{NODES};
ghost use Rattle.table.specs.Answer.{Assures};
ghost use Rattle.table.specs.Repeats.{part};
ghost use Rattle.table.specs.Second.{IsPower, PartsNext, PowerPartsNext, weight, AtRest, CameOne, Concludes};

use crate::{Held, Item, NODES, Outcome, Triple};

// Whether the node at a place is the power that three words tell.
fn is_power(w: &[u64], p: usize, power: Triple) -> bool
    requires { p + 3 ≤ length w.now }
    ensures { IsPower w.now p power.code power.a power.b result }
{
    let stored = Triple {
        code: w[p],
        a: w[p + 1],
        b: w[p + 2],
    };
    stored == power
}

// The number of the first node that differs, where those before k part at `parts`, and number k is a power.
fn parts_by_power(w: &[u64], base: usize, k: usize, parts: usize, power: Triple) -> usize
    requires { Room base parts w.now }
    ensures { PowerPartsNext w.now base k parts power.code power.a power.b result }
{
    if k >= parts {
        return parts;
    }
    if is_power(w, base + 3 * k, power) {
        return parts;
    }
    k
}

// The same where number k is a variable or a symbol.
fn parts_by_plain(w: &[u64], base: usize, k: usize, parts: usize, code: u64) -> usize
    requires room { Room base parts w.now }
    requires not_code { ¬ (code % 3 ≡ 2) }
    ensures { PartsNext w.now base k parts (node_of code 0 0) result }
{
    if k >= parts {
        return parts;
    }
    if w[base + 3 * k] == code {
        return parts;
    }
    k
}

// Nothing merges any more with the power that waits, if one does.
fn settle(w: &[u64], base: usize, h: Held) -> Held
    requires room { Room base h.parts w.now }
    requires nodes_bound { h.nodes ≤ 2 ^ 32 }
    ensures { AtRest w.now base h result }
{
    let Some(power) = h.power else {
        return h;
    };
    Held {
        nodes: h.nodes + 1,
        parts: parts_by_power(w, base, h.nodes, h.parts, power),
        power: None,
    }
}

// A variable or a symbol comes.
fn hold_plain(w: &[u64], base: usize, h: Held, code: u64) -> Held
    requires room { Room base h.parts w.now }
    requires nodes_bound { (h.nodes ≤ 2 ^ 32) × (¬ (code % 3 ≡ 2)) }
    ensures { CameOne w.now base (node_of code 0 0) h result }
{
    let k = settle(w, base, h);
    Held {
        nodes: k.nodes + 1,
        parts: parts_by_plain(w, base, k.nodes, k.parts, code),
        ..k
    }
}

// A power comes: dropped if it counts nothing, added to the one that waits if that is of the same symbol.
fn hold_power(w: &[u64], base: usize, h: Held, s: u16, a: u64, b: u64) -> Held
    requires room { Room base h.parts w.now }
    requires nodes_bound { (h.nodes ≤ 2 ^ 32) × (weight h.power + (a + b) < 2 ^ 64) }
    ensures { CameOne w.now base (npow s (a, b)) h result }
{
    if a + b == 0 {
        return h;
    }
    let code = 3 * (s as u64) + 2;
    let Some(power) = h.power else {
        return Held {
            power: Some(Triple { code, a, b }),
            ..h
        };
    };
    if power.code == code {
        return Held {
            power: Some(Triple {
                code,
                a: power.a + a,
                b: power.b + b,
            }),
            ..h
        };
    }
    Held {
        power: Some(Triple { code, a, b }),
        ..settle(w, base, h)
    }
}

// The next node comes.
pub fn hold(w: &[u64], base: usize, h: Held, node: Item) -> Held
    requires room { Room base h.parts w.now }
    requires nodes_bound { (h.nodes ≤ 2 ^ 32) × (weight h.power + load (node_told node ∷ []) < 2 ^ 64) × Coded node }
    ensures { CameOne w.now base (node_told node) h result }
{
    match node {
        Item::Plain(code) => hold_plain(w, base, h, code),
        Item::Power { symbol: s, a, b } => hold_power(w, base, h, s, a, b),
    }
}

// Whether the nodes at two places have the same words. Word by word, and no `==` of two `Triple`s, for which the compiler reads all words first.
fn is_same(w: &[u64], p: usize, q: usize) -> bool
    requires { (p + 3 ≤ length w.now) × (q + 3 ≤ length w.now) }
    ensures { Assures (node_at w.now p ≡ node_at w.now q) result }
{
    if w[p] != w[q] {
        return false;
    }
    w[p + 1] == w[q + 1] && w[p + 2] == w[q + 2]
}

// Whether the `count` nodes from number n on are those from number `from` on.
pub fn again(w: &[u64], base: usize, n: usize, from: usize, count: usize) -> bool
    requires room { Room base (n + count) w.now }
    requires count_bound { from + count ≤ NODES }
    ensures { Assures (part w.now base n count ≡ part w.now base from count) result }
{
    for k in 0..count {
        if !is_same(w, base + 3 * (n + k), base + 3 * (from + k)) {
            return false;
        }
    }
    true
}

// What a second side amounts to of which no node is left, beside the n nodes that are stored.
pub fn outcome(w: &[u64], base: usize, n: usize, h: Held) -> Outcome
    requires room { Room base h.parts w.now }
    requires nodes_bound { h.nodes ≤ 2 ^ 32 }
    ensures { Concludes w.now base n h result }
{
    let all = settle(w, base, h);
    if all.nodes > NODES {
        return Outcome::Full;
    }
    if all.nodes == n && all.parts == n {
        return Outcome::Same;
    }
    Outcome::Other
}
