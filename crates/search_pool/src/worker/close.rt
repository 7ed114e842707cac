ghost use Rattle.std.specs.Prelude.{◌≡◌, ◌<◌, ◌+◌, ◌++◌, [], ◌∷◌, ℕ, length, slice_get};
ghost use Rattle.search_pool.specs.Working.{MayCloseAll, last_group, with_closed};

use node_claims::Turn;

/// Closes the nodes of the last released group.
pub(crate) fn close_group(turn: &mut Turn<'_>)
    requires { MayCloseAll turn.old }
    ensures { turn.new ≡ with_closed turn.old (last_group turn.old.book) }
{
    let count = members(turn);
    for index in 0..count {
        let node = member(turn, index);
        turn.close(node);
    }
}

// How many nodes the last group has.
fn members(turn: &mut Turn<'_>) -> usize
    requires { 0 < length turn.old.book.groups }
    ensures count { result ≡ length (last_group turn.old.book) }
    ensures unchanged { turn.new ≡ turn.old }
{
    let groups = turn.book().released().groups();
    groups[groups.len() - 1].len()
}

// The node at an index of the last group.
fn member(turn: &mut Turn<'_>, index: usize) -> u32
    requires some { 0 < length turn.old.book.groups }
    requires within { index < length (last_group turn.old.book) }
    ensures member { slice_get (last_group turn.old.book) index ≡ Some result }
    ensures unchanged { turn.new ≡ turn.old }
{
    let groups = turn.book().released().groups();
    groups[groups.len() - 1][index]
}
