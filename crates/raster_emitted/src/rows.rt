// The rows of a shape, be it a triangle or a rectangle: of each the pixels between its edges, one by one, or by the run where all have all their samples.
ghost use Rattle.std.specs.Prelude.{◌≡◌, ◌+◌, ◌<◌, ◌≤◌};
ghost use Rattle.raster_edges.specs.Limits.{TameTri};
ghost use Rattle.raster_pixel.specs.Parts.{from};
ghost use Rattle.raster_emitted.specs.Shapes.{row_masks, shape_masks};
ghost use Rattle.raster_emitted.specs.Listed.{ListedIn};

use crate::slots::Slots;
use raster_edges::Tri;
use raster_pixel::row::{self, Row};

// Row y of a frame of this width, as far as a shape goes.
#[derive(Clone, Copy)]
struct Line {
    antialias: bool,
    row: Row,
    width: u32,
    y: u32,
    ghost small: { (width ≤ 1024) × (y < 1024) },
}

// Pixel x, or the run from x up to next.
fn list_part(slots: &mut Slots, line: &Line, x: u32, next: u32)
    requires inside { (x < next) × (next ≤ line.now.width) }
    requires run { x + 1 < next → (line.now.row.full.start ≤ x) × (next ≤ line.now.row.full.end) }
    ensures { ListedIn (from (row_masks line.now.antialias line.now.row.edges line.now.width line.now.y) x next) slots.old slots.new }
{
    let mask = line.row.samples(x);
    if raster_pixel::is_shown(line.antialias, mask) {
        let pixel = line.y * line.width + x;
        slots.list_run(pixel, mask, next - x);
    }
}

// The pixels from start up to end, as far as they are counted: an early pixel is found without the rest of its row.
fn list_row(slots: &mut Slots, line: &Line, start: u32, end: u32)
    requires inside { (start ≤ end) × (end ≤ line.now.width) × (line.now.row.full.end ≤ end) }
    ensures { ListedIn (from (row_masks line.now.antialias line.now.row.edges line.now.width line.now.y) start end) slots.old slots.new }
{
    let mut x = start;
    // A step is a pixel or a run of them: no range has such steps.
    while x < end {
        if slots.count == slots.limit {
            return;
        }
        let next = row::part_end(true, line.row.full, x, end);
        list_part(slots, line, x, next);
        x = next;
    }
}

// The pixels of a shape inside the scissor: only between its outermost edges, outside which no sample lies.
pub fn list_shape(slots: &mut Slots, antialias: bool, t: Tri)
    requires { TameTri t }
    ensures { let v = slots.old.view in ListedIn (shape_masks antialias t v.scissor v.width v.height) slots.old slots.new }
{
    let view = slots.view;
    let area = view.area();
    let rows = raster_edges::rows(t, area.top, area.bottom);
    for y in rows.start..rows.end {
        if slots.count == slots.limit {
            return;
        }
        let edges = raster_edges::edges_at(t, y);
        let kept = raster_edges::bounds(edges, area.left, area.right);
        let line = Line {
            antialias,
            row: Row::new(edges, kept.start, kept.end),
            width: view.width,
            y,
        };
        list_row(slots, &line, kept.start, kept.end);
    }
}
