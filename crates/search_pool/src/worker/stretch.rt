/// Roots that were handed out to one worker at once. It has claimed those before `next`.
#[derive(Drop)]
pub(crate) struct Stretch {
    pub(crate) roots: Vec<u32>,
    pub(crate) next: usize,
}
