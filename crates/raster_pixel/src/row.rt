// A row of a shape between its edges, and the parts of it: one pixel, or the run of those that have all their samples, of which none is tested.
ghost use Rattle.std.specs.Prelude.{◌≡◌, true, ◌+◌, ◌<◌, ◌≤◌};
ghost use Rattle.std.proofs.Props.{props};
ghost use Rattle.raster_edges.specs.Sample.{mask_of};
ghost use Rattle.raster_pixel.specs.Row.{Fulls};

use raster_edges::Edges;
use raster_range::Range;

const ALL: u8 = 255;

// Its edges, and the pixels that have all eight samples.
#[derive(Clone, Copy)]
pub struct Row {
    pub edges: Edges,
    pub full: Range,
    pub ghost fulls: { Fulls edges full } by { Prim.hlevel props },
}

impl Row {
    // The row from start up to end: two numbers and no Range, since a caller has them apart and no Range says that it does not end before it starts.
    pub fn new(edges: Edges, start: u32, end: u32) -> Row
        requires { (start ≤ end) × (end ≤ 1024) }
        ensures edges { result.edges ≡ edges }
        ensures within { result.full.end ≤ end }
    {
        let full = raster_edges::full(edges, start, end);
        Row { edges, full }
    }

    // The samples of pixel x: all eight in the full part, where none is tested.
    pub fn samples(&self, x: u32) -> u8
        requires { x < 65536 }
        ensures { result ≡ mask_of self.now.edges x }
    {
        if (self.full.start..self.full.end).contains(&x) {
            ALL
        } else {
            raster_edges::mask(self.edges, x)
        }
    }
}

// Where the part of a row that starts at x ends: after pixel x, or after the run of full pixels where it starts. It asks nothing of these pixels, and so it is no method of Row,
// whose ghost field it does not need.
pub fn part_end(runs: bool, full: Range, x: u32, end: u32) -> u32
    requires { (x < end) × (full.end ≤ end) }
    ensures within { (x < result) × (result ≤ end) }
    ensures run { x + 1 < result → (runs ≡ true) × (full.start ≤ x) × (result ≤ full.end) }
{
    let next = x + 1;
    if runs && x == full.start && next < full.end {
        full.end
    } else {
        next
    }
}
