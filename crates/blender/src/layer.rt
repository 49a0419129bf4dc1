// Pixels whose blend is mostly worked out once a draw, where one colour serves every pixel: those that are laid over the memory's colour by factors of the
// draw, and those that are stored as they are wherever the samples of pixel and memory overflow.
ghost use Rattle.std.specs.Prelude.{◌≡◌};
ghost use Rattle.blender.specs.Layer.{layered_of, steady_of, layer_of};

use crate::{decode_mux, factor_a, factor_b, own_color, rejects};
use combiner::Combiner;
use state::{RenderMode, Rgba};

// P times A in each channel, and B, the memory's share.
#[derive(Clone, Copy)]
pub struct Layer {
    pub r: f32,
    pub g: f32,
    pub b: f32,
    pub share: f32,
}

// Whether the pixel is laid over the memory's colour, by factors that turn on neither the memory's coverage nor the shade.
#[tactic(auto, unfolding(crate::specs::Layer::layered_of))]
pub fn layered(mode: RenderMode, alpha: f32) -> bool
    ensures { result ≡ layered_of mode alpha }
{
    let mux = decode_mux(mode.blender_mux);
    let rejected = rejects(mode, alpha);
    mode.force_blend & (mux.p != 1) & (mux.m == 1) & (mux.a != 2) & (mux.b != 1) & !rejected
}

// Whether P is stored as it is where the samples of pixel and memory are more than 8, and the shade's alpha enters nowhere.
#[tactic(auto, unfolding(crate::specs::Layer::steady_of))]
pub fn steady(mode: RenderMode) -> bool
    ensures { result ≡ steady_of mode }
{
    let mux = decode_mux(mode.blender_mux);
    !mode.force_blend & (mux.p != 1) & (mux.a != 2)
}

// Of a pixel that is layered: neither a shade nor a coverage enters it, so that 0 stands for both.
#[tactic(auto, unfolding(crate::specs::Layer::layer_of))]
pub fn layer_of(mode: RenderMode, combiner: Combiner, rgba: Rgba) -> Layer
    ensures { result ≡ layer_of mode combiner rgba }
{
    let mux = decode_mux(mode.blender_mux);
    let p = own_color(mode, combiner, rgba);
    let a = factor_a(mux.a, rgba.a, combiner.fog.a, 0.0);
    let share = factor_b(mux.b, a, 0);
    Layer {
        r: p.r * a,
        g: p.g * a,
        b: p.b * a,
        share,
    }
}
