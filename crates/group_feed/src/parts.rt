use crate::line::LinePass;
use group_release::Released;
use node_claims::Pass;

/// What the search and the feeder begin with.
#[derive(Drop)]
pub(crate) struct Parts {
    pub(crate) passes: Vec<Pass>,
    pub(crate) spare: Pass,
    pub(crate) feeder: Pass,
    pub(crate) hand: LinePass,
    pub(crate) copies: Released,
}
