// The entries of a run of words. What does not turn on the pixel is asked before; column and row are counted along, not divided out.
ghost use Rattle.std.specs.Prelude.{◌≡◌, ℕ, ◌+◌, ◌*◌, ◌<◌, ◌≤◌, length};
ghost use Rattle.frame.specs.Frame.{pixel_at};
ghost use Rattle.frame.specs.Shown.{seen};
ghost use Rattle.refused.specs.Numbers.{number_of};
ghost use Rattle.words_read.specs.Read.{word_means, read_answer};
ghost use Rattle.words_read.specs.Format.{args_of};
ghost use Rattle.words_run.specs.Run.{count_of, answers_from, read_answers, read_at};
ghost use Rattle.words_run.specs.Entries.{answer_of, refused_by, halfword, answer_at, answer_in, At};

use frame::Frame;
use refused::Refusal;
use state::Rgba8;
use words_pack::Bytes2;
use words_read::Format;

// The column and row of a pixel.
#[derive(Clone, Copy)]
pub struct Place {
    pub x: usize,
    pub y: usize,
}

impl Place {
    // The place of the next pixel.
    fn next(self, width: usize) -> Place
        requires column { self.x < width }
        requires pixel { self.y * width + self.x ≤ 1048576 }
        ensures { At width (self.y * width + self.x + 1) result }
    {
        let x = self.x + 1;
        if x < width {
            Place { x, y: self.y }
        } else {
            Place {
                x: 0,
                y: self.y + 1,
            }
        }
    }
}

// A pixel of 16 bits.
fn halfword(color: Rgba8, coverage: u8, place: Place, format: Format) -> Bytes2
    requires { coverage ≤ 7 }
    ensures { result ≡ halfword place.x place.y format.rgb_dither format.encoding color coverage }
{
    let threshold = words_pack::word_threshold(format.rgb_dither, place.x, place.y);
    let word = words_pack::pack_color(color, coverage, threshold);
    words_pack::encode_u16(format.encoding, word)
}

// The word of a pixel that numbers 1 to 9 let through, or number 10. Its 8 bits, red in even columns and green in odd ones, are chosen here: by a call, the colour would be kept in
// memory for 16 bits too, and a run takes 1.7 times as long.
#[tactic(auto, unfolding(crate::specs::Entries::answer_at))]
fn read(frame: &Frame, pixel: usize, place: Place, format: Format) -> Result<Bytes2, Refusal>
    requires { pixel < length (seen frame.now).marks }
    ensures { word_means result ≡ answer_at format.siz place.x place.y format.rgb_dither format.encoding (pixel_at (seen frame.now) pixel) }
{
    if format.siz != 2 {
        let color = frame.color(pixel).ok_or(Refusal::Unknown)?;
        let byte = if place.x % 2 == 0 {
            color.red
        } else {
            color.green
        };
        return Ok(Bytes2(byte, 0));
    }
    let (color, coverage) = frame.bytes(pixel).ok_or(Refusal::Unknown)?;
    Ok(halfword(Rgba8::from(color), coverage, place, format))
}

// The two slices of a run, as C lends them: two bytes of words for each number.
#[derive(Drop)]
pub struct Entries<'a> {
    pub words: &'a mut [u8],
    pub numbers: &'a mut [u8],
    pub ghost matched: { length words.now ≡ 2 * length numbers.now },
}

impl<'a> Entries<'a> {
    ghost use Rattle.words_run.specs.Written.{Same, PutIn, WroteIn};

    fn put_entry(&mut self, i: usize, number: u8, word: Bytes2)
        requires { i < length self.old.numbers.now }
        ensures same { Same self.old self.new }
        ensures entry { PutIn i (answer_of number word) self.old self.new }
    {
        self.words[2 * i] = word.0;
        self.words[2 * i + 1] = word.1;
        self.numbers[i] = number;
    }

    fn put(&mut self, i: usize, answer: Result<Bytes2, Refusal>)
        requires { i < length self.old.numbers.now }
        ensures same { Same self.old self.new }
        ensures entry { PutIn i (word_means answer) self.old self.new }
    {
        let (number, word) = match answer {
            Ok(word) => (0, word),
            Err(refusal) => (refusal.number(), Bytes2(0, 0)),
        };
        self.put_entry(i, number, word);
    }

    // The entries from `start` up to `end`, turned away with one number: none if `end` is before `start`. They are two numbers and no Range, since its callers have them apart.
    // Entry by entry, as they are read: by the slices' own `fill` the library would need memset of its host. The number is asked for before, since with its match in the loop
    // the entries are written one at a time and not sixteen.
    pub fn fill(&mut self, start: usize, end: usize, refusal: Refusal)
        requires { end ≤ length self.old.numbers.now }
        ensures same { Same self.old self.new }
        ensures entries { WroteIn (λ (i : ℕ). refused_by (number_of refusal)) start end self.old self.new }
    {
        let number = refusal.number();
        for i in start..end {
            self.put_entry(i, number, Bytes2(0, 0));
        }
    }

    // The first `count` entries, whose pixels are there and which numbers 1 to 9 let through: how many are words.
    fn read_entries(&mut self, frame: &Frame, first: usize, format: Format, count: usize) -> u64
        requires there { 0 < count → first + count ≤ length (seen frame.now).marks }
        requires within { count ≤ length self.old.numbers.now }
        ensures same { Same self.old self.new }
        ensures entries { WroteIn (λ (i : ℕ). answer_in frame.now.width format.siz format.rgb_dither format.encoding (seen frame.now) (first + i)) 0 count self.old self.new }
        ensures count { result ≡ count_of (answers_from (λ (i : ℕ). answer_in frame.now.width format.siz format.rgb_dither format.encoding (seen frame.now) (first + i)) 0 count) }
    {
        let width = frame.width as usize;
        let mut n: u64 = 0;
        let mut place = Place {
            x: first % width,
            y: first / width,
        };
        for i in 0..count {
            let answer = read(frame, first + i, place, format);
            n += u64::from(answer.is_ok());
            self.put(i, answer);
            place = place.next(width);
        }
        n
    }

    // The first `count` entries, whose pixels are there: number 9 for all, or each pixel's answer.
    pub fn read_there(&mut self, frame: &Frame, first: usize, format: Format, count: usize) -> u64
        requires there { 0 < count → first + count ≤ length (seen frame.now).marks }
        requires within { count ≤ length self.old.numbers.now }
        ensures same { Same self.old self.new }
        ensures entries { WroteIn (λ (i : ℕ). read_answer (read_at (args_of format first) i) frame.now.width frame.now.height (seen frame.now)) 0 count self.old self.new }
        ensures count { result ≡ count_of (read_answers (args_of format first) frame.now.width frame.now.height (seen frame.now) count) }
    {
        if !words_pack::supported(format.writer(frame.width)) {
            self.fill(0, count, Refusal::Writer);
            return 0;
        }
        self.read_entries(frame, first, format, count)
    }
}
