//! The key of a sort item, from its row.
ghost use Rattle.std.specs.Prelude.{◌≡◌, ◌<◌, length, get_or, true, None, Some, is_some, All};
ghost use Rattle.cql_plan.specs.RowKeys.{key_in};
ghost use Rattle.cql_syntax.specs.Hits.{chosen as chosen_of};

/// The greatest entry of a row at some nodes, or the least. There must be a node, and the row must have an entry at each of them.
pub fn key_over(row: &[Option<i64>], least: bool, nodes: &[u32]) -> i64
    requires some { 0 < length nodes.now }
    requires values { All (λ n. is_some (get_or row.now n None) ≡ true) nodes.now }
    ensures { Some result ≡ key_in least row.now nodes.now }
{
    let mut key = entry_at(row, nodes[0]);
    for k in 1..nodes.len() {
        let value = entry_at(row, nodes[k]);
        key = chosen(least, key, value);
    }
    key
}

fn entry_at(row: &[Option<i64>], n: u32) -> i64
    requires { is_some (get_or row.now n None) ≡ true }
    ensures { get_or row.now n None ≡ Some result }
{
    row[n as usize].unwrap()
}

fn chosen(least: bool, a: i64, b: i64) -> i64
    ensures { result ≡ chosen_of least a b }
{
    if least { a.min(b) } else { a.max(b) }
}
