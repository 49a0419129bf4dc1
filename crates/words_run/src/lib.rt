// A run of words read from the lent frame in one go: each pixel's answer is that of its single read.
#![tactic(auto)]

ghost use Rattle.std.specs.Prelude.{◌≡◌, ◌-◌, min};
ghost use Rattle.frame.specs.Frame.{frame_of};
ghost use Rattle.frame.specs.Lent.{old, new};
ghost use Rattle.words_read.specs.Format.{args_of};
ghost use Rattle.words_run.specs.Run.{run_means, NumberedRun, run_answer};

use frame::Frame;
use refused::Refusal;
use words_read::Format;

mod entry; // the entries of a run

use entry::Entries;

// How many of a run's entries have a pixel: those whose pixel is below `pixels`.
fn entries_there(pixels: usize, first: usize, entries: usize) -> usize
    ensures { result ≡ min entries (pixels - first) }
{
    entries.min(pixels.saturating_sub(first))
}

// The words of the pixels from `first` on, as many as there are numbers: each pixel's number and two bytes are those of its single read. It answers how many
// words were read. Its own refusal is for slices that do not have two bytes for each number; it writes nothing. The frame is three slices, as `read_word` takes it.
pub fn read_words(
    width: u32,
    height: u32,
    colors: &[u8],
    coverages: &[u8],
    marks: &[u8],
    first: usize,
    format: Format,
    words: &mut [u8],
    numbers: &mut [u8],
) -> Result<u64, Refusal>
    ensures answer { run_means result (new words) (new numbers) ≡ run_answer (args_of format first) width height (frame_of colors.now coverages.now marks.now) (old words) (old numbers) }
    ensures number { NumberedRun result }
{
    let count = numbers.len();
    if words.len() != 2 * count {
        return Err(Refusal::Words);
    }
    let mut entries = Entries { words, numbers };
    let frame = match Frame::new(width, height, colors, coverages, marks) {
        Ok(frame) => frame,
        Err(refusal) => {
            entries.fill(0, count, refusal);
            return Ok(0);
        }
    };
    let there = entries_there(frame.pixels(), first, count);
    let read = entries.read_there(&frame, first, format, there);
    entries.fill(there, count, Refusal::Pixel);
    Ok(read)
}
