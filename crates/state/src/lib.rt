// The state that a draw carries: the decoded render mode (hle/blender.rs) and the combiner uniform (render/mod.rs), with
// every field of the Rust's. Few of them are looked at; all of them belong to a draw. A field of the console's words (cycle_type, cvg_dst, a dither) is a
// number, as every value of it has a meaning, which an enum would refuse.
#![tactic(auto)]

// Red, green, blue and alpha.
#[repr(C)]
#[derive(Clone, Copy)]
pub struct Rgba {
    pub r: f32,
    pub g: f32,
    pub b: f32,
    pub a: f32,
}

// A colour in bytes.
#[derive(Clone, Copy, Debug, PartialEq, Eq)]
pub struct Rgba8 {
    pub r: u8,
    pub g: u8,
    pub b: u8,
    pub a: u8,
}

#[derive(Clone, Copy, Debug, PartialEq, Eq)]
pub enum BlendClass {
    Replace,
    BlendColor,
    AlphaOver,
    DualSrc,
}

#[derive(Clone, Copy, Debug, PartialEq, Eq)]
pub enum ZMode {
    Opa,
    Inter,
    Xlu,
    Decal,
}

#[derive(Clone, Copy, Debug, PartialEq, Eq)]
pub enum AlphaCompare {
    None,
    Threshold,
    Dither,
}

#[derive(Clone, Copy)]
pub struct RenderMode {
    pub cycle_type: u32,
    pub rgb_dither: u8,
    pub alpha_dither: u8,
    pub key_enabled: bool,
    pub cvg_dst: u8,
    pub image_read: bool,
    pub antialias: bool,
    pub alpha_cvg_select: bool,
    pub color_on_coverage: bool,
    pub blender_mux: u16,
    pub force_blend: bool,
    pub blend_class: BlendClass,
    pub fallback_class: BlendClass,
    pub non_canonical_blend: bool,
    pub z_source_prim: bool,
    pub z_test: bool,
    pub z_write: bool,
    pub z_mode: ZMode,
    pub fog: bool,
    pub alpha_compare: AlphaCompare,
    pub cvg_x_alpha: bool,
}

#[repr(C)]
#[derive(Clone, Copy)]
pub struct CombinerUniform {
    pub combine_l: u32,
    pub combine_h: u32,
    pub cycle_type: u32,
    pub tex_enable: u32,
    pub blender_mux: u32,
    pub force_blend: u32,
    pub alpha_flags: u32,
    pub alpha_threshold: f32,
    pub prim: Rgba,
    pub env: Rgba,
    pub blend_color: Rgba,
    pub fog_color: Rgba,
    pub inv_tex_size: [f32; 4],
    pub inv_tex1_size: [f32; 4],
    pub lod_params: [f32; 4],
    pub inv_detail_size: [f32; 4],
    pub frame: [u32; 4],
    pub is_rect: u32,
    pub coverage_slot: u32,
    pub fill_word: u32,
    pub fill_siz: u32,
    pub primitive_depth: [u32; 4],
    pub native_scale: [f32; 4],
    pub raster: [u32; 4],
}
