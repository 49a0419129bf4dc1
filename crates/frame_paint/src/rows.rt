// A row of a triangle or of a rectangle. Where every sample is known to be covered none is tested, and full pixels of one colour are drawn as a run.
ghost use Rattle.std.specs.Prelude.{◌≡◌, ◌+◌, ◌*◌, ◌<◌, ◌≤◌, IfSome};
ghost use Rattle.raster_pixel.specs.Parts.{from};
ghost use Rattle.raster_pixel.specs.Emitted.{emits};
ghost use Rattle.frame_paint.specs.Pixel.{DrewOn};
ghost use Rattle.frame_paint.specs.Row.{fragment_of, row_at, Runs};

use crate::Target;
use crate::fill::fill_run;
use crate::paint::Paint;
use crate::pixels::draw_pixel;
use raster_edges::Edges;
use raster_pixel::Fragment;
use raster_pixel::row::{self, Row};
use raster_vertex::row::ShadeRow;

// What pixel x emits, of which these are the samples: in the colour of its shade; or, without shades, in the paint's own, with 1.0 for the shade's alpha.
#[tactic(auto, unfolding(crate::specs::Row::fragment_of))]
fn fragment(paint: &Paint, shades: Option<ShadeRow>, mask: u8, x: u32) -> Option<Fragment>
    requires { x < 1024 }
    ensures value { result ≡ fragment_of paint.now shades mask x }
    ensures mask_nonzero { IfSome result (λ f. 0 < f.mask) }
{
    if !raster_pixel::is_shown(paint.mode.antialias, mask) {
        return None;
    }
    let Some(row) = shades else {
        return Some(Fragment {
            mask,
            color: paint.color,
            shade_alpha: 1.0,
        });
    };
    let shade = row.at(x);
    Some(Fragment {
        mask,
        color: paint.resolved.color(shade),
        shade_alpha: shade.a,
    })
}

// Pixel x of row y, with these samples: how many are emitted. Here and below, target, paint and shades stay three parameters: the target is written, the paint is the
// draw's and the shades are a row's. That y and the columns are inside the view is a bound of an index, as any slice asks for.
fn row_pixel(
    target: &mut Target,
    paint: &Paint,
    shades: Option<ShadeRow>,
    mask: u8,
    y: u32,
    x: u32,
) -> u64
    requires { (y < target.old.view.height) × (x < target.old.view.width) }
    ensures { DrewOn paint.now.mode paint.now.combiner (emits (fragment_of paint.now shades mask x) (y * target.old.view.width + x)) target.old target.new result }
{
    let Some(fragment) = fragment(paint, shades, mask, x) else {
        return 0;
    };
    let pixel = y * target.view.width + x;
    draw_pixel(
        target,
        &paint.mode,
        &paint.combiner,
        &paint.own,
        fragment,
        pixel as usize,
    );
    1
}

// Pixel x of row y, or the run from x up to next.
fn draw_part(
    target: &mut Target,
    paint: &Paint,
    shades: Option<ShadeRow>,
    row: &Row,
    y: u32,
    x: u32,
    next: u32,
) -> u64
    requires x_lt_next { (x < next) × Runs paint.now shades row.now.full x next }
    requires there { (y < target.old.view.height) × (next ≤ target.old.view.width) }
    ensures { DrewOn paint.now.mode paint.now.combiner (from (row_at paint.now shades row.now.edges target.old.view.width y) x next) target.old target.new result }
{
    if x + 1 < next {
        let base = y * target.view.width;
        fill_run(
            target.colors,
            target.coverages,
            target.marks,
            paint,
            (base + x) as usize,
            (base + next) as usize,
        );
        return (next - x) as u64;
    }
    let mask = row.samples(x);
    row_pixel(target, paint, shades, mask, y, x)
}

// The pixels of row y from start up to end: by their shades, or, without shades, all of the paint's own colour. Start and end are two numbers and no Range, since no Range says
// that it does not end before it starts.
pub fn draw_row(
    target: &mut Target,
    paint: &Paint,
    shades: Option<ShadeRow>,
    edges: Edges,
    y: u32,
    start: u32,
    end: u32,
) -> u64
    requires start_le_end { start ≤ end }
    requires there { (y < target.old.view.height) × (end ≤ target.old.view.width) }
    ensures { DrewOn paint.now.mode paint.now.combiner (from (row_at paint.now shades edges target.old.view.width y) start end) target.old target.new result }
{
    let row = Row::new(edges, start, end);
    let runs = shades.is_none() & paint.even;
    let mut n: u64 = 0;
    let mut x = start;
    // A step is a pixel or a run of them: no range has such steps.
    while x < end {
        let next = row::part_end(runs, row.full, x, end);
        n += draw_part(target, paint, shades, &row, y, x, next);
        x = next;
    }
    n
}
