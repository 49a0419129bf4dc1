// `admitted` and the pieces of `rasterize` below its loops (writeback.rs): which triangles a draw may have, the pixels inside a
// scissor, and which of them are shown.
#![tactic(auto)]

ghost use Rattle.std.specs.Prelude.{◌≡◌, map, IfSome};
ghost use Rattle.raster_edges.specs.Limits.{TameTri};
ghost use Rattle.raster_pixel.specs.Emitted.{shown, corner_of};
ghost use Rattle.raster_pixel.specs.Near.{CornersNear};
ghost use Rattle.raster_pixel.specs.SetUp.{set_up_of};

use raster_edges::{Corner, Tri};
use raster_rectangle::Sides;
use raster_vertex::{Triangle, Vertex};
use state::Rgba;

pub mod lists; // the lists of a draw, and admitted
pub mod row; // a row between its edges, and its parts
pub mod shapes; // what a draw draws
pub mod view; // a frame's size and a draw's scissor

pub use crate::lists::Lists;
pub use crate::shapes::Shapes;
pub use crate::view::View;

// In pixels.
#[repr(C)]
#[derive(Clone, Copy)]
pub struct Scissor {
    pub left: u32,
    pub top: u32,
    pub width: u32,
    pub height: u32,
}

// The part of a frame inside a scissor: columns left up to right and rows top up to bottom, right and bottom left out. `Sides` (raster_rectangle) are any four floats.
#[derive(Clone, Copy)]
pub struct Area {
    pub left: u32,
    pub top: u32,
    pub right: u32,
    pub bottom: u32,
}

// What a draw covers. Nothing is a case and no None: the definition of a draw has it, and C may pass it.
#[derive(Clone, Copy)]
pub enum Geometry {
    Nothing,
    Triangles,
    Rectangle(Sides),
}

// What a pixel emits: its sample mask, its combined colour and its shade alpha.
#[derive(Clone, Copy)]
pub struct Fragment {
    pub mask: u8,
    pub color: Rgba,
    pub shade_alpha: f32,
}

// A vertex in quarter units. Both types are other crates', so that this is a function and no From.
fn corner(v: Vertex) -> Corner
    ensures { result ≡ corner_of v }
{
    Corner {
        x: num_float::quarter(v.x),
        y: num_float::quarter(v.y),
    }
}

// Not v.map(corner): it proves, but draws whose pixels are listed then run at 0.98 of their speed.
#[tactic(auto, using(crate::proofs::Mapped::map_three))]
pub fn corners(v: [Vertex; 3]) -> [Corner; 3]
    ensures { result ≡ map corner_of v }
{
    let [a, b, c] = v;
    [corner(a), corner(b), corner(c)]
}

// A triangle's vertices from the top down, and the edges between their corners. Nothing of a triangle that is culled or whose area in quarter units is 0.
#[tactic(auto, unfolding(crate::specs::SetUp::set_up_of))]
pub fn set_up(cull: bool, triangle: Triangle) -> Option<(Tri, [Vertex; 3])>
    requires { CornersNear triangle.a triangle.b triangle.c }
    ensures value { result ≡ set_up_of cull triangle }
    ensures tame { IfSome result (λ p. TameTri p.0) }
{
    if triangle.culled(cull) {
        return None;
    }
    let vertices = raster_vertex::sort([triangle.a, triangle.b, triangle.c]);
    let corners = corners(vertices);
    if raster_edges::quarter_area(corners) == 0 {
        return None;
    }
    Some((raster_edges::setup(corners), vertices))
}

// Whether a pixel with these samples is emitted.
#[tactic(auto, using(crate::proofs::Masks::high_bit))]
pub fn is_shown(antialias: bool, mask: u8) -> bool
    ensures { result ≡ shown antialias mask }
{
    mask != 0 && (antialias || mask & 0x80 != 0)
}
