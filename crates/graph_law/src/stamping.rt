ghost use Rattle.std.specs.Prelude.{◌<◌, length, All};
ghost use Rattle.graph_law.specs.Stamp.{IsStamped};

/// Writes the value to the entry of each of the nodes.
pub fn stamp<T: Copy>(table: &mut [T], nodes: &[u32], value: T)
    requires { All (λ node. node < length table.old) nodes.now }
    ensures { IsStamped nodes.now value table.old table.new }
{
    for &node in nodes {
        table[node as usize] = value;
    }
}
