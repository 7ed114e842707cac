ghost use Rattle.std.specs.Prelude.{◌≡◌};
ghost use Rattle.group_release.specs.Coding.{numbers_of};

use boxcar::tag::Names;
use graph_law::Opener;

/// The successor lists of an opener, which contracts read from a tag. They take no memory.
pub(crate) struct Lists;

impl<O: Opener> Names<O> for Lists {
    ghost use Rattle.group_release.specs.Coding.{numbers_of};

    ghost numbers = { λ opener. numbers_of (O.lists opener) };
}
