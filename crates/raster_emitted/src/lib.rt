// The pixels that a draw emits, by number and sample mask alone: counted, and listed in two lent slices from one of them on. Nothing is drawn and no colour is worked
// out; a run of full pixels is passed by its length. It is a walk of its own beside rasterize's: what the two have in common are loops of a few lines, and a row's
// shades, runs by the paint, and the stop at the limit differ, so that one walk over a trait would have more in its trait than in common. Neither colours
// nor few triangles are asked for: a draw whose combiner has no colour for some shade, or that has any number of triangles, is counted like any other.
#![tactic(auto)]

ghost use Rattle.std.specs.Prelude.{◌≡◌};
ghost use Rattle.raster_pixel.specs.declared.Geometry.TheVariants.{Triangles};
ghost use Rattle.raster_emitted.specs.Shapes.{rectangle_masks, triangles_masks, masks_as};
ghost use Rattle.raster_emitted.specs.Listed.{ListedIn};

use crate::rows::list_shape;
pub use crate::slots::Slots;
use raster_pixel::{Geometry, Shapes};
use raster_rectangle::Sides;

pub mod rows; // the rows of a shape
pub mod slots; // the lent slices

fn list_triangles(slots: &mut Slots, shapes: &Shapes)
    requires { shapes.now.geometry ≡ Triangles }
    ensures { let s = shapes.now in
        let v = slots.old.view in
        ListedIn (triangles_masks s.mode.antialias s.cull v.scissor v.width v.height s.lists.vertices.now s.lists.present.now s.lists.indices.now) slots.old slots.new }
{
    for i in 0..shapes.lists.indices.len() / 3 {
        if slots.count == slots.limit {
            return;
        }
        if let Some((t, _)) = shapes.set_up(i) {
            list_shape(slots, shapes.mode.antialias, t);
        }
    }
}

// A rectangle goes by its edges, as a triangle does. Cull is ignored.
fn list_rectangle(slots: &mut Slots, antialias: bool, sides: Sides)
    ensures { let v = slots.old.view in ListedIn (rectangle_masks antialias v.scissor v.width v.height sides) slots.old slots.new }
{
    list_shape(slots, antialias, raster_rectangle::outline(sides));
}

// The pixels of a draw: they are counted, and those that are asked for are in their slots. Slots and shapes stay two parameters: one is written, and the other only read.
pub fn list_pixels(slots: &mut Slots, shapes: &Shapes)
    ensures { ListedIn (masks_as slots.old.view shapes.now) slots.old slots.new }
{
    match shapes.geometry {
        Geometry::Nothing => {}
        Geometry::Rectangle(sides) => list_rectangle(slots, shapes.mode.antialias, sides),
        Geometry::Triangles => list_triangles(slots, shapes),
    }
}
