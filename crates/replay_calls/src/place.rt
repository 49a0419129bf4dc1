// A place in a text of recorded lines, and reads from it on: words, lists of words and strings of bytes, each after a space. A read
// that finds something else gives nothing, and the place is then the text's first byte, from where the next read goes on: what the
// first line begins with stands in for what a line lacks. No read goes over the end of a line.
ghost use Rattle.std.specs.Prelude.{◌≡◌, ◌-◌, ◌*◌, ◌≤◌, ◌==◌, true, false, ◌++◌, length, IfSome, IsSome, IsNone, IsSomeAnd, IfNone, MatchOption};

use arrayvec::ArrayVec;
use replay_values::line::{FromLine, Line};

#[derive(Clone, Copy)]
pub struct Place<'a> {
    text: &'a [u8],
    left: Line<'a>, // of the text from the place on, and nothing at the text's first byte
    after: usize, // how many bytes the text has from the end of the place's line on
}

impl<'a> Place<'a> {
    // The start of a line, from where on the text has `rest`.
    pub fn new(text: &'a [u8], rest: &'a [u8], line: &[u8]) -> Place<'a>
        ensures left { IsSomeAnd result.left.rest (λ left. left.now ≡ rest.now) }
        ensures whole { result.text.now ≡ text.now }
        ensures after { result.after ≡ length rest.now - length line.now }
    {
        Place {
            text,
            left: Line::new(rest),
            after: rest.len().saturating_sub(line.len()),
        }
    }

    // What is left of a line, without a text around it: behind a word, list or string that isn't there no other is.
    pub fn alone(line: Line<'a>) -> Place<'a>
        ensures left { result.left ≡ line.entry }
        ensures text { length result.text.now ≡ 0 }
        ensures after { result.after ≡ 0 }
    {
        Place {
            text: b"",
            left: line,
            after: 0,
        }
    }

    // What is left of the text as of a line, and nothing at the text's first byte.
    pub fn line(&self) -> Line<'a>
        ensures { result ≡ self.now.left }
    {
        Line {
            rest: self.left.rest,
        }
    }

    // Whether the last read found what it asked for.
    pub fn found(&self) -> bool
        ensures { MatchOption self.now.left.rest (result ≡ false) (λ left. result ≡ true) }
    {
        self.left.rest.is_some()
    }

    // Whether the line is read to its end.
    pub fn has_ended(&self) -> bool
        ensures { MatchOption self.now.left.rest (result ≡ false) (λ left. result ≡ (length left.now == self.now.after)) }
    {
        match self.left.rest {
            Some(rest) => rest.len() == self.after,
            None => false,
        }
    }

    // Goes to the text's first byte.
    pub fn lose(&mut self)
        ensures { IsNone self.new.left.rest }
    {
        self.left = Line { rest: None };
    }

    // What the next read has before it.
    pub fn ahead(&self) -> &'a [u8]
        ensures { MatchOption self.now.left.rest (result.now ≡ self.now.text.now) (λ left. result.now ≡ left.now) }
    {
        self.left.rest.unwrap_or(self.text)
    }

    // Goes on behind some bytes.
    pub fn skip(&mut self, bytes: &[u8]) -> Option<()>
        ensures { MatchOption self.new.left.rest (IsNone result) (λ new. IsSome result × MatchOption self.old.left.rest (self.old.text.now ≡ bytes.now ++ new.now) (λ old. old.now ≡ bytes.now ++ new.now)) }
    {
        self.left = Line::new(self.ahead());
        self.left.skip(bytes)
    }

    pub fn read<T: FromLine + Drop>(&mut self) -> Option<T>
        ensures { IfNone result (IsNone self.new.left.rest) }
    {
        let mut line = Line::new(self.ahead());
        let value = line.read();
        if value.is_none() {
            line = Line { rest: None };
        }
        self.left = line;
        value
    }

    // How many elements a list or a string has.
    fn count(&mut self, limit: usize) -> usize
        ensures { result ≤ limit }
    {
        let count = self.read().unwrap_or(0);
        if count > limit {
            self.lose();
            return 0;
        }
        count
    }

    // A list is its length, at most N, and then its elements. One that isn't there is a zero, and where it is the last there is no list.
    pub fn list<T: FromLine + Default + Drop, const N: usize>(&mut self) -> Option<ArrayVec<T, N>>
        ensures { IfSome result (λ list. IsSome self.new.left.rest) }
    {
        let mut list = ArrayVec::new();
        for _ in 0..self.count(N) {
            list.try_push(self.read().unwrap_or_default()).ok()?;
        }
        self.found().then_some(list)
    }

    // A string is its length and two digits for each byte, with a space before the first. A byte that isn't there is a zero.
    fn length(&mut self, limit: usize) -> usize
        ensures { result ≤ limit }
    {
        let count = self.count(limit);
        if count > 0 {
            let _ = self.skip(b" ");
        }
        count
    }

    fn byte(&mut self) -> u8 {
        self.left = Line::new(self.ahead());
        self.left.byte().unwrap_or(0)
    }

    // Puts a string of at most N bytes in place of another. There is none where the last byte isn't there.
    pub fn string<const N: usize>(&mut self, to: &mut ArrayVec<u8, N>) -> Option<()>
        ensures { IfSome result (λ _. IsSome self.new.left.rest) }
    {
        to.clear();
        for _ in 0..self.length(N) {
            to.try_push(self.byte()).ok()?;
        }
        self.found().then_some(())
    }

    // Puts a string's bytes over a slice's, from its first byte on. Whether the slice has had just these.
    pub fn put_over(&mut self, slice: &mut [u8]) -> bool {
        let count = self.length(slice.len());
        let mut same = count == slice.len();
        for to in &mut slice[..count] {
            let byte = self.byte();
            same &= *to == byte;
            *to = byte;
        }
        same
    }
}
