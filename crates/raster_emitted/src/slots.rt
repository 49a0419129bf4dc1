// The slots that are asked for: a run of emitted pixels goes to its slots in one step, and what lies outside them is passed by its length.
ghost use Rattle.std.specs.Prelude.{◌≡◌, ℕ, ◌+◌, ◌-◌, ◌<◌, ◌≤◌, min, length};
ghost use Rattle.raster_emitted.specs.Filled.{FilledIn};

use raster_pixel::View;

// Of a draw in this view, pixel first + i goes to slot i, and none is counted from limit on. `count` is how many there were so far. The slices are two, not one of
// pairs, as C lends them.
#[derive(Drop)]
pub struct Slots<'a> {
    pub view: View,
    pub first: u64,
    pub limit: u64,
    pub count: u64,
    pub pixels: &'a mut [u32],
    pub masks: &'a mut [u8],
    pub ghost within: { count ≤ limit },
    pub ghost matched: { length pixels.now ≡ length masks.now },
}

impl Slots<'_> {
    ghost use Rattle.raster_emitted.specs.Shapes.{run_masks};
    ghost use Rattle.raster_emitted.specs.Listed.{ListedIn, Cleared};

    // Pixels `pixel` up to `pixel + more`, the draw's next ones, each with these samples.
    pub fn list_run(&mut self, pixel: u32, mask: u8, more: u32)
        requires small { pixel + more < 4294967296 }
        ensures { ListedIn (run_masks mask pixel (pixel + more)) self.old self.new }
    {
        if more == 1 {
            self.list_pixel(pixel, mask);
            return;
        }
        let before = self.count;
        let end = counted(self.limit, before, more);
        self.count = end;
        // Of a run before the first slot the count alone tells, without the slices: a late pixel is found faster.
        if end <= self.first {
            return;
        }
        let slots = self.masks.len();
        let start = slots_before(self.first, before, slots);
        let stop = slots_before(self.first, end, slots);
        if start == stop {
            return;
        }
        // Pixels before the first slot's are counted only.
        let passed = self.first.saturating_sub(before) as u32;
        fill(self.pixels, self.masks, start, stop, pixel + passed, mask);
    }

    // A run of one, as most are: without the bounds of a longer one triangles are listed faster.
    fn list_pixel(&mut self, pixel: u32, mask: u8)
        ensures { ListedIn (run_masks mask pixel (pixel + 1)) self.old self.new }
    {
        let before = self.count;
        if before == self.limit {
            return;
        }
        self.count = before + 1;
        if before < self.first {
            return;
        }
        let slot = before - self.first;
        if slot < self.masks.len() as u64 {
            self.pixels[slot as usize] = pixel;
            self.masks[slot as usize] = mask;
        }
    }

    // How many slots a pixel has reached: the first ones.
    pub fn reached(&self) -> usize
        ensures { result ≡ min (length self.now.masks.now) (self.now.count - self.now.first) }
    {
        slots_before(self.first, self.count, self.masks.len())
    }

    // Zeros in the slots that none has reached.
    pub fn clear(&mut self)
        ensures { Cleared self.old self.new }
    {
        let start = self.reached();
        zero(self.pixels, self.masks, start);
    }
}

// The count after `more` pixels, at most the limit.
fn counted(limit: u64, n: u64, more: u32) -> u64
    requires { n ≤ limit }
    ensures { result ≡ min limit (n + more) }
{
    // n + more may not fit
    n + (limit - n).min(more as u64)
}

// How many slots lie before the draw's n-th pixel, of those that there are.
pub fn slots_before(first: u64, n: u64, slots: usize) -> usize
    ensures { result ≡ min slots (n - first) }
{
    n.saturating_sub(first).min(slots as u64) as usize
}

// Slots start up to stop: `number` and the numbers after it, and this mask. This and `zero` take the slices themselves: in a loop over a field of a &mut struct, what the
// field holds is read again at each turn. Both slices are written in one loop, by index: a loop or a `fill` for one alone is compiled to a call of memset, which the library
// asks of no host; and after a zip or an enumerate of iter_mut a proof knows nothing of what was written.
fn fill(pixels: &mut [u32], masks: &mut [u8], start: usize, stop: usize, number: u32, mask: u8)
    requires slots { (start ≤ stop) × (stop ≤ length masks.old) × (length pixels.old ≡ length masks.old) }
    requires small { number + (stop - start) < 4294967297 }
    ensures { FilledIn (λ (i : ℕ). number + (i - start)) mask start stop pixels masks }
{
    for i in start..stop {
        pixels[i] = number + (i - start) as u32;
        masks[i] = mask;
    }
}

// Zeros in the slots from start on.
fn zero(pixels: &mut [u32], masks: &mut [u8], start: usize)
    requires { (start ≤ length masks.old) × (length pixels.old ≡ length masks.old) }
    ensures { FilledIn (λ (i : ℕ). 0) 0 start (length masks.old) pixels masks }
{
    for i in start..masks.len() {
        pixels[i] = 0;
        masks[i] = 0;
    }
}
