// A frame of a recorded list, with the three slices that are lent to the port.
use crate::place::Place;
use arrayvec::ArrayVec;

// A slice of a recorded frame has no more than 256 bytes.
pub type Slice = ArrayVec<u8, 256>;

#[derive(Drop)]
pub struct Frame {
    pub width: u32,
    pub height: u32,
    pub colors: Slice,
    pub coverages: Slice,
    pub marks: Slice,
}

impl Frame {
    // Without bytes.
    pub fn new() -> Frame {
        Frame {
            width: 0,
            height: 0,
            colors: Slice::new(),
            coverages: Slice::new(),
            marks: Slice::new(),
        }
    }

    // Takes the three slices that a line has next. They are put where the last ones were, so that none is copied.
    pub fn take(&mut self, width: u32, height: u32, line: &mut Place<'_>) -> Option<()> {
        self.width = width;
        self.height = height;
        line.string(&mut self.colors)?;
        line.string(&mut self.coverages)?;
        line.string(&mut self.marks)
    }

    // Whether the three slices are those that a line has next. The next call works on the recorded ones.
    pub fn is_next(&mut self, line: &mut Place<'_>) -> bool {
        let colors = line.put_over(self.colors.as_mut_slice());
        let coverages = line.put_over(self.coverages.as_mut_slice());
        let marks = line.put_over(self.marks.as_mut_slice());
        colors & coverages & marks
    }
}
