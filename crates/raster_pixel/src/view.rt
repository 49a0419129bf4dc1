// Where a draw may emit pixels.
ghost use Rattle.std.specs.Prelude.{◌≡◌};
ghost use Rattle.raster_pixel.specs.Area.{Sized, area_of, Bounded};

use crate::{Area, Scissor};

// A frame's size and a draw's scissor, as numbers 1 and 4 let them through.
#[derive(Clone, Copy)]
pub struct View {
    pub scissor: Scissor,
    pub width: u32,
    pub height: u32,
    pub ghost sized: { Sized scissor width height },
}

impl View {
    // The pixels of the frame inside the scissor. Where it starts past the frame's end, the area ends where it starts.
    #[tactic(auto, unfolding(crate::specs::Area::area_of))]
    pub fn area(self) -> Area
        ensures value { result ≡ area_of self.scissor self.width self.height }
        ensures bounded { Bounded result self.width self.height }
    {
        let right = self.width.min(self.scissor.left + self.scissor.width);
        let bottom = self.height.min(self.scissor.top + self.scissor.height);
        Area {
            left: self.scissor.left.min(right),
            top: self.scissor.top.min(bottom),
            right,
            bottom,
        }
    }
}
