// Pixels as the guest's memory words: the packing of coherence.rs, with pack_depth of framebuffers.rs.
#![tactic(auto)]

ghost use Rattle.std.specs.Prelude.{◌≡◌, ◌*◌, ◌<◌, ◌≤◌};
ghost use Rattle.words_pack.specs.Color.{pack_channel_of, pack_color_of};
ghost use Rattle.num_bits.specs.Field.{field};
ghost use Rattle.words_pack.specs.Dither.{place_of, threshold_of};
ghost use Rattle.words_pack.specs.Depth.{deepest, range, Within, word_in, depth_word, depth_of, pack_depth_of};
ghost use Rattle.words_pack.specs.Writer.{supported_of, pixel_bytes_of, bytes_of, literal_of, pixel_depth_of, color_of, encode_of};

use state::Rgba8;

// An image's format and size of a pixel, as Set Color Image numbers them, and its width in pixels. Numbers and no enums: a word of the console may hold any,
// and `supported` says which have a writer. That siz is at most 3 and width not 0 are clauses and no ghost fields: a Writer is made before
// number 9 or 11 tells, and definitions that are to be believed take any.
#[derive(Clone, Copy)]
pub struct ImageLayout {
    pub fmt: u8,
    pub siz: u8,
    pub width: u32,
}

// What writes an image: colours, or depths where `depth` is set.
#[derive(Clone, Copy)]
pub struct Writer {
    pub layout: ImageLayout,
    pub depth: bool,
}

// The order of a word's two bytes. Native is the little-endian host's.
#[derive(Clone, Copy)]
pub enum FramebufferEncoding {
    Native,
    BigEndian,
}

// Two bytes of memory, the lower address first.
#[derive(Clone, Copy)]
pub struct Bytes2(pub u8, pub u8);

// Dither thresholds of four rows of four pixels. Noise has no reproducible guest RNG and takes the magic square too.
const MAGIC: [u8; 16] = [0, 6, 1, 7, 4, 2, 5, 3, 3, 5, 2, 4, 7, 1, 6, 0];

const BAYER: [u8; 16] = [0, 4, 1, 5, 4, 0, 5, 1, 3, 7, 2, 6, 7, 3, 6, 2];

// The same, four bits each, the first lowest, for a run of words.
const MAGIC_WORD: u64 = 0x0617_4253_3524_7160;

const BAYER_WORD: u64 = 0x2637_6273_1504_5140;

// The largest depth of eighteen bits.
const DEEPEST: u32 = 0x3ffff;

// A channel's upper five bits, rounded up where the lower three are above the threshold: what is added carries into the fourth bit there, and a sum that is
// cut off at 255 gives 31. By a test instead, undithered words take a fifth longer.
#[tactic(auto, unfolding(crate::specs::Color::pack_channel_of))]
pub fn pack_channel(v: u8, threshold: u8) -> u8
    ensures { result ≡ pack_channel_of v threshold }
{
    v.saturating_add(7u8.saturating_sub(threshold)) / 8
}

// A colour's word: five bits of each channel, and the coverage's top bit. That a coverage is at most 7 is a clause and no type: definitions take any number.
pub fn pack_color(rgba: Rgba8, coverage: u8, dither: u8) -> u16
    requires { coverage ≤ 7 }
    ensures { result ≡ pack_color_of rgba coverage dither }
{
    let r = pack_channel(rgba.r, dither) as u16;
    let g = pack_channel(rgba.g, dither) as u16;
    let b = pack_channel(rgba.b, dither) as u16;
    let top = (coverage >> 2) as u16;
    (r << 11) | (g << 6) | (b << 1) | top
}

// The pixel's place in a square.
fn place(x: usize, y: usize) -> usize
    ensures { result ≡ place_of x y }
{
    y % 4 * 4 + x % 4
}

// The pixel's threshold by the dither mode: 0 and 2 the magic square, 1 Bayer's, else none is rounded up. These tables are read beside the console's papers.
#[tactic(auto, unfolding(crate::specs::Dither::threshold_of))]
pub fn threshold(rgb_dither: u8, x: usize, y: usize) -> u8
    ensures { result ≡ threshold_of rgb_dither x y }
{
    let index = place(x, y);
    match rgb_dither {
        0 | 2 => MAGIC[index],
        1 => BAYER[index],
        _ => 7,
    }
}

// An entry of a square: three bits of a u64, where num_bits' `bits` takes a u32.
#[tactic(auto, using(crate::proofs::Squares::masked))]
fn entry(square: u64, index: usize) -> u8
    requires { index < 16 }
    ensures { result ≡ field square (4 * index) 3 }
{
    ((square >> (4 * index)) & 7) as u8
}

// `threshold`, from the words: a table is built again for each pixel, the words are not, and a run of words by the tables runs at 0.80 to 0.87 of its speed.
#[tactic(auto, using(crate::proofs::Squares::magic_entry, crate::proofs::Squares::bayer_entry), unfolding(crate::specs::Dither::threshold_of))]
pub fn word_threshold(rgb_dither: u8, x: usize, y: usize) -> u8
    ensures { result ≡ threshold_of rgb_dither x y }
{
    let index = place(x, y);
    match rgb_dither {
        0 | 2 => entry(MAGIC_WORD, index),
        1 => entry(BAYER_WORD, index),
        _ => 7,
    }
}

// A depth's word in the range of one exponent.
fn range_word(d: u32, exponent: u32, first: u32, shift: u32) -> u16
    requires { Within (range exponent first shift) d × (exponent < 8) × (shift < 32) }
    ensures { result ≡ word_in (range exponent first shift) d }
{
    let mantissa = (d - first) >> shift;
    (mantissa * 4 + exponent * 8192) as u16
}

// The manual's eight ranges: each exponent with its first depth and its shift.
#[tactic(auto, unfolding(crate::specs::Depth::depth_word, crate::specs::Depth::range_of, crate::specs::Depth::last_from))]
fn depth_word(d: u32) -> u16
    requires { d ≤ deepest }
    ensures { result ≡ depth_word d }
{
    match d {
        0..0x20000 => range_word(d, 0, 0x00000, 6),
        0x20000..0x30000 => range_word(d, 1, 0x20000, 5),
        0x30000..0x38000 => range_word(d, 2, 0x30000, 4),
        0x38000..0x3c000 => range_word(d, 3, 0x38000, 3),
        0x3c000..0x3e000 => range_word(d, 4, 0x3c000, 2),
        0x3e000..0x3f000 => range_word(d, 5, 0x3e000, 1),
        0x3f000..0x3f800 => range_word(d, 6, 0x3f000, 0),
        _ => range_word(d, 7, 0x3f800, 0),
    }
}

// A float's depth in eighteen bits. A NaN fails both tests.
fn depth_of(depth: f32) -> u32
    ensures { result ≡ depth_of depth }
{
    if depth > 0.0 {
        if depth < 1.0 {
            std::num::truncating_f32_to_u64(depth * 262144.0) as u32
        } else {
            DEEPEST
        }
    } else {
        0
    }
}

// A depth's word, for every bit pattern.
#[tactic(auto, using(crate::proofs::Units::depth_small), unfolding(crate::specs::Depth::pack_depth_of))]
pub fn pack_depth(depth: f32) -> u16
    ensures { result ≡ pack_depth_of depth }
{
    depth_word(depth_of(depth))
}

// The same of the float that lies in a pixel's four bytes. A NaN among them needs no test of the bits, since depth_of's tests turn it down; the two laws say of such a
// test which constant is right.
#[tactic(auto, using(crate::proofs::Nans::no_nan, crate::proofs::Nans::nan_packs))]
fn pack_depth_bytes(rgba: Rgba8) -> u16
    ensures { result ≡ pixel_depth_of rgba }
{
    let bits = u32::from_le_bytes([rgba.r, rgba.g, rgba.b, rgba.a]);
    pack_depth(std::num::f32_from_bits_with_nan(bits))
}

// A word's bytes as they lie in memory.
#[tactic(auto, unfolding(crate::specs::Writer::bytes_of))]
pub fn encode_u16(encoding: FramebufferEncoding, word: u16) -> Bytes2
    ensures { result ≡ bytes_of encoding word }
{
    let [low, high] = word.to_le_bytes();
    match encoding {
        FramebufferEncoding::Native => Bytes2(low, high),
        FramebufferEncoding::BigEndian => Bytes2(high, low),
    }
}

// Depths, 16-bit RGBA, and 8-bit colour index, intensity and alpha, or intensity.
#[tactic(auto, unfolding(crate::specs::Writer::supported_of, crate::specs::Writer::color_supported))]
pub fn supported(writer: Writer) -> bool
    ensures { result ≡ supported_of writer }
{
    let ImageLayout { fmt, siz, .. } = writer.layout;
    writer.depth || matches!((siz, fmt), (2, 0) | (1, 2..=4))
}

// Half a byte counts as a whole one.
#[tactic(auto, unfolding(crate::specs::Writer::pixel_bytes_of))]
pub fn pixel_bytes(layout: ImageLayout) -> usize
    requires { layout.siz ≤ 3 }
    ensures { result ≡ pixel_bytes_of layout }
{
    ((4 << layout.siz) / 8).max(1)
}

// The pixel's part of a literal word, which holds two halfwords or four bytes, the first pixel's on top.
#[tactic(auto, using(crate::proofs::Word::field_small), unfolding(crate::specs::Writer::literal_of))]
fn encode_literal(
    layout: ImageLayout,
    word: u32,
    pixel: usize,
    encoding: FramebufferEncoding,
) -> Bytes2
    requires { layout.siz ≤ 3 }
    ensures { result ≡ literal_of layout word pixel encoding }
{
    if pixel_bytes(layout) == 2 {
        let half = (pixel % 2) as u32;
        encode_u16(encoding, num_bits::bits(word, 16 * (1 - half), 16) as u16)
    } else {
        let place = (pixel % 4) as u32;
        Bytes2(num_bits::bits(word, 8 * (3 - place), 8) as u8, 0)
    }
}

// A byte by the column's parity for one-byte pixels, else the packed word. words_run chooses the byte itself, as its `read` says.
#[tactic(auto, unfolding(crate::specs::Writer::color_of))]
fn encode_color(
    layout: ImageLayout,
    rgba: Rgba8,
    coverage: u8,
    pixel: usize,
    rgb_dither: u8,
    encoding: FramebufferEncoding,
) -> Bytes2
    requires { (layout.siz ≤ 3) × (0 < layout.width) × (coverage ≤ 7) }
    ensures { result ≡ color_of layout rgba coverage pixel rgb_dither encoding }
{
    let width = layout.width as usize;
    let (x, y) = (pixel % width, pixel / width);
    if pixel_bytes(layout) == 1 {
        Bytes2(if x % 2 == 0 { rgba.r } else { rgba.g }, 0)
    } else {
        encode_u16(
            encoding,
            pack_color(rgba, coverage, threshold(rgb_dither, x, y)),
        )
    }
}

// The two bytes that the writer puts down for a pixel; a one-byte pixel leaves the second 0. They are 0 and no None where the writer is not supported, as in the Rust, whose
// arguments these are.
#[tactic(auto, unfolding(crate::specs::Writer::encode_of, crate::specs::Writer::written_of))]
pub fn encode(
    writer: Writer,
    rgba: Rgba8,
    coverage: u8,
    pixel: usize,
    literal: Option<u32>, // a draw's literal word, if it has one
    rgb_dither: u8,
    encoding: FramebufferEncoding,
) -> Bytes2
    requires { (writer.layout.siz ≤ 3) × (0 < writer.layout.width) × (coverage ≤ 7) }
    ensures { result ≡ encode_of writer rgba coverage pixel literal rgb_dither encoding }
{
    if !supported(writer) {
        return Bytes2(0, 0);
    }
    match literal {
        Some(word) => encode_literal(writer.layout, word, pixel, encoding),
        None if writer.depth => encode_u16(encoding, pack_depth_bytes(rgba)),
        None => encode_color(writer.layout, rgba, coverage, pixel, rgb_dither, encoding),
    }
}
