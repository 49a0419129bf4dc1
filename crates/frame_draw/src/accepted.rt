// A draw that numbers 1 to 7 let through.
ghost use Rattle.std.specs.Prelude.{◌≤◌, length};
ghost use Rattle.std.proofs.Props.{props};
ghost use Rattle.combiner_resolved.specs.Resolved.{Mixed};

use raster_pixel::{Shapes, View};

// Where it may emit pixels, and what it draws. It has so few triangles that its pixels can be counted, and its combiner a colour for every shade.
#[derive(Clone, Copy)]
pub struct AcceptedDraw<'a> {
    pub view: View,
    pub shapes: Shapes<'a>,
    pub ghost few: { length shapes.lists.indices.now ≤ 12288 },
    pub ghost mixed: { Mixed shapes.combiner } by { Prim.hlevel props },
}
