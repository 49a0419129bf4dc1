// How many calls there were, and how many of them agree.
ghost use Rattle.std.specs.Prelude.{◌≡◌, ◌+◌, ◌%◌, ◌^◌, ◌==◌, if◌then◌else◌};

use std::fmt;

#[derive(Clone, Copy, Default)]
pub struct Counts {
    pub agreed: u64,
    pub seen: u64,
}

impl Counts {
    pub fn count(&mut self, agrees: bool)
        ensures seen { self.new.seen ≡ (self.old.seen + 1) % 2 ^ 64 }
        ensures agreed { self.new.agreed ≡ (if agrees then (self.old.agreed + 1) % 2 ^ 64 else self.old.agreed) }
    {
        self.seen = self.seen.wrapping_add(1);
        if agrees {
            self.agreed = self.agreed.wrapping_add(1);
        }
    }

    pub fn all_agree(&self) -> bool
        ensures { result ≡ (self.now.agreed == self.now.seen) }
    {
        self.agreed == self.seen
    }
}

impl fmt::Display for Counts {
    fn fmt<W: fmt::Write>(&self, f: &mut fmt::Formatter<W>) -> fmt::Result {
        let Counts { agreed, seen } = *self;
        write!(f, "{agreed} of {seen}")
    }
}
