// A word read from the lent frame: the word of one pixel, with numbers 1 to 3 and 8 to 10.
#![tactic(auto)]

ghost use Rattle.std.specs.Prelude.{◌≡◌};
ghost use Rattle.frame.specs.Frame.{frame_of};
ghost use Rattle.frame.specs.Shown.{seen};
ghost use Rattle.words_read.specs.Read.{writer_by, word_means, read_answer, Numbered};
ghost use Rattle.words_read.specs.Format.{args_of};

use frame::Frame;
use refused::Refusal;
use state::Rgba8;
use words_pack::{Bytes2, FramebufferEncoding, ImageLayout, Writer};

// How words are written: by the numbers of the console's words, of which each has a meaning.
#[derive(Clone, Copy)]
pub struct Format {
    pub fmt: u8,
    pub siz: u8,
    pub rgb_dither: u8,
    pub encoding: FramebufferEncoding,
}

impl Format {
    // A colour writer of a frame's width.
    pub fn writer(self, width: u32) -> Writer
        ensures { result ≡ writer_by width self.fmt self.siz }
    {
        Writer {
            layout: ImageLayout {
                fmt: self.fmt,
                siz: self.siz,
                width,
            },
            depth: false,
        }
    }
}

// `encode`'s two bytes, without a literal, of a pixel, or the first of numbers 8 to 10 that holds. An unknown coverage is passed as 0. Frame and format stay two, here and in
// words_run: one is what memory holds, and the other how it is written.
#[tactic(auto, using(frame::proofs::Fits::seen_good, crate::proofs::Reading::supported_siz), unfolding(crate::specs::Read::read_answer, crate::specs::Read::read_refusal, crate::specs::Read::word_refusal, crate::specs::Read::word_of))]
fn read(frame: &Frame, pixel: usize, format: Format) -> Result<Bytes2, Refusal>
    ensures answer { word_means result ≡ read_answer (args_of format pixel) frame.now.width frame.now.height (seen frame.now) }
    ensures number { Numbered result }
{
    if frame.pixels() <= pixel {
        return Err(Refusal::Pixel);
    }
    let writer = format.writer(frame.width);
    if !words_pack::supported(writer) {
        return Err(Refusal::Writer);
    }
    let color = Rgba8::from(frame.color(pixel).ok_or(Refusal::Unknown)?);
    let coverage = frame.coverage(pixel);
    if format.siz == 2 && coverage.is_none() {
        return Err(Refusal::Unknown);
    }
    let word = words_pack::encode(
        writer,
        color,
        coverage.unwrap_or(0),
        pixel,
        None,
        format.rgb_dither,
        format.encoding,
    );
    Ok(word)
}

// The word of a pixel, where its colour, and its coverage for 16 bits, is known: numbers 1 to 3 and 8 to 10. The frame comes as three slices, as a
// draw takes it (frame_draw says why).
#[tactic(auto, using(crate::proofs::Reading::read_refused))]
pub fn read_word(
    width: u32,
    height: u32,
    colors: &[u8],
    coverages: &[u8],
    marks: &[u8],
    pixel: usize,
    format: Format,
) -> Result<Bytes2, Refusal>
    ensures answer { word_means result ≡ read_answer (args_of format pixel) width height (frame_of colors.now coverages.now marks.now) }
    ensures number { Numbered result }
{
    let frame = Frame::new(width, height, colors, coverages, marks)?;
    read(&frame, pixel, format)
}
