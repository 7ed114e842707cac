ghost use Rattle.std.specs.Prelude.{◌<◌, ◌≤◌};

use prolog_tokens::Text;

/// How many threads search at most.
pub const MOST_JOBS: u32 = 64;

/// The name of standard input.
pub const STANDARD_INPUT: &str = "-";

/// What valid arguments set.
#[derive(Drop)]
pub struct Settings {
    /// Whether groups are reported in the order in which the search finds them.
    pub order: bool,
    /// Whether the report is JSON Lines.
    pub json: bool,
    /// Whether a shortest cycle of each recursive group is reported.
    pub loops: bool,
    /// Whether the text is JSON Lines.
    pub from_json: bool,
    /// How many threads search, 1 to 64.
    pub jobs: u32,
    /// The names of the nodes whose reach is reported, in the order of the arguments. If there is
    /// none, all nodes are.
    pub roots: Vec<Text>,
    /// The name of the text that is read: a file, or `-` for standard input.
    pub file: Text,
    pub ghost some: { 0 < jobs },
    pub ghost few: { jobs ≤ 64 },
}
