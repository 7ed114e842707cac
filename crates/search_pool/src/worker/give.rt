ghost use Rattle.std.specs.Prelude.{◌≡◌, ◌++◌, ℕ, Bool, None};
ghost use Rattle.node_claims.specs.Claims.{ClaimsValue, nodes_with};
ghost use Rattle.node_claims.specs.Steps.{MayGive};
ghost use Rattle.node_claims.specs.Views.{outline_of};
ghost use Rattle.list_laws.specs.Counts.{flat};
ghost use Rattle.search_pool.specs.Working.{AreRootsOf, ContinuesWith, IsAtWork};

use super::outcome::Worker;
use super::stretch::Stretch;
use node_claims::Turn;
use search_stack::Search;

/// Unlocks, and continues with a search and with the roots of a stretch. The first `seen_roots` of
/// all roots are released or were seen finished.
pub(crate) fn give_back(
    turn: Turn<'_>,
    search: Search,
    stretch: Stretch,
    seen_roots: usize,
) -> Worker
    requires { MayGive turn.view turn.taken (outline_of turn.book) (nodes_with search None) }
    ensures at_work { (claims : ClaimsValue) (opened : Bool) → ContinuesWith claims turn.entry search seen_roots opened → AreRootsOf claims stretch.roots.items
        → IsAtWork claims result opened }
    ensures search { result.search ≡ search }
    ensures stretch { result.stretch ≡ stretch }
    ensures seen { result.pass.view.seen ≡ turn.entry.view.seen ++ flat turn.entry.book.groups }
{
    let pass = turn.give(&search, None);
    Worker {
        pass,
        search,
        stretch,
        seen_roots,
        waits: 0,
        vain: 0,
        awaited: 0,
    }
}
