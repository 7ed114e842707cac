//! The numbers of the first line.

ghost use Rattle.std.specs.Prelude.{◌≡◌, ◌<◌, ◌^◌, All, length, sum_by, count_by};
ghost use Rattle.graph_law.specs.Graph.{lists_of};
ghost use Rattle.report_lines.specs.Head.{height_count};

use group_release::Level;

/// The members of all groups together.
pub fn member_count(groups: &[Vec<u32>]) -> u64
    requires few { length groups.now < 2 ^ 32 }
    requires short { All (λ members. length members < 2 ^ 32) (lists_of groups.now) }
    ensures { result ≡ sum_by length (lists_of groups.now) }
{
    let mut count = 0;
    for members in groups {
        count += members.len() as u64;
    }
    count
}

/// How many groups are recursive.
pub fn recursive_count(levels: &[Level]) -> u64
    ensures { result ≡ count_by (λ level. level.recursive) levels.now }
{
    levels.iter().filter(|level| level.recursive).count() as u64
}

/// One more than the greatest height, or 0 if there is no level.
pub fn height_count(levels: &[Level]) -> u64
    ensures { result ≡ height_count levels.now }
{
    let mut count = 0;
    for level in levels {
        count = count.max(u64::from(level.height) + 1);
    }
    count
}
