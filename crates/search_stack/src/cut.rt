ghost use Rattle.std.specs.Prelude.{◌≡◌, ◌<◌, ◌≤◌, ◌^◌, length};
ghost use Rattle.search_stack.specs.FrameCuts.{IsGreatestCut, frame_in};

use crate::frame::Frame;

/// Where a search is cut: a frame, and the position of its entry.
#[derive(Clone, Copy)]
pub struct Cut {
    pub position: u32,
    pub frame: u32,
}

/// The greatest frame at or below the index such that no frame from it on has a low below its
/// position. The first frame, at index 0, is one.
pub(crate) fn greatest_cut(frames: &[Frame], place: u32) -> Cut
    requires some { 0 < length frames.now }
    requires few { length frames.now ≤ 2 ^ 32 }
    requires first { (frame_in frames.now 0).position ≡ 0 }
    ensures { IsGreatestCut frames.now place result }
{
    let mut above = frames.len();
    let mut least = u32::MAX;
    'frames: while above > 0 {
        above -= 1;
        let frame = frames[above];
        least = least.min(frame.low);
        if frame.position > place {
            continue;
        }
        if frame.position <= least {
            return Cut {
                position: frame.position,
                frame: above as u32,
            };
        }
    }
    Cut {
        position: 0,
        frame: 0,
    }
}
