//! The first node of a set, and the end of the set.
ghost use Rattle.std.specs.Prelude.{◌≡◌, ℕ, ◌<◌, ◌≤◌, length, get_or, false};

/// Returns the first node of a set, or the number of nodes if the set is empty.
pub fn first_live(live: &[bool]) -> usize
    ensures most { result ≤ length live.now }
    ensures none { (n : ℕ) → n < result → get_or live.now n false ≡ false }
{
    for n in 0..live.len() {
        if live[n] {
            return n;
        }
    }
    live.len()
}

/// Returns the end of a set: one past its last node, or 0 if the set is empty.
pub fn live_end(live: &[bool]) -> usize
    ensures most { result ≤ length live.now }
    ensures none { (n : ℕ) → result ≤ n → get_or live.now n false ≡ false }
{
    let mut end = live.len();
    while end > 0 {
        if live[end - 1] {
            return end;
        }
        end -= 1;
    }
    0
}

/// Returns the first node of a set of the nodes of a game, or the number of nodes if the set is empty.
pub fn first_live_node(live: &[bool], nodes: u32) -> u32
    requires { length live.now ≡ nodes }
    ensures most { result ≤ nodes }
    ensures none { (n : ℕ) → n < result → get_or live.now n false ≡ false }
{
    for n in 0..nodes {
        if live[n as usize] {
            return n;
        }
    }
    nodes
}

/// Returns the end of a set of the nodes of a game: one past its last node, or 0 if the set is empty.
pub fn live_node_end(live: &[bool], nodes: u32) -> u32
    requires { length live.now ≡ nodes }
    ensures most { result ≤ nodes }
    ensures none { (n : ℕ) → result ≤ n → get_or live.now n false ≡ false }
{
    let mut end = nodes;
    while end > 0 {
        if live[end as usize - 1] {
            return end;
        }
        end -= 1;
    }
    0
}
