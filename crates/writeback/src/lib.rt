// The public set of the port: what a host may call, and the types that it needs for that. Nothing is defined here; docs/THEOREMS.md has each call's contract.
#![tactic(auto)]

// A draw's state.
pub use state::{AlphaCompare, BlendClass, CombinerUniform, RenderMode, Rgba, Rgba8, ZMode};

// Why a call is turned away.
pub use refused::Refusal;

// Selectors.
pub use combiner_inputs::{
    AlphaIn, ColorIn, CombinerSelectors, CycleSel, alpha_abd, alpha_c, color_a, color_b, color_c,
    color_d, decode_combine,
};

// The combiner, with its methods new, color and strict_color.
pub use combiner::Combiner;

// The single-pixel calls.
pub use blender::Coverage;
pub use words_pack::{Bytes2, FramebufferEncoding, ImageLayout, Writer, pack_depth};
pub use writeback_pixel::{
    blend, color_known, destination, encode, pack_color, pixel_bytes, supported,
};

// Vertices, with the method in_range, and the lists of a draw, with the method admitted.
pub use raster_pixel::{Geometry, Lists, Scissor};
pub use raster_rectangle::Sides;
pub use raster_vertex::Vertex;

// The frame. A Format has the method writer.
pub use frame_draw::{DrawCall, Engine, draw};
pub use frame_emitted::{Emitted, Listed, emitted_pixel, emitted_pixels};
pub use words_read::{Format, read_word};
pub use words_run::read_words;
