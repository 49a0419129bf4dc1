// A line from its start on: words of eight lowercase hexadecimal digits and lists of words, each after a space, and bytes of two.
// It is bytes and no `&str`, since a line that is no text is a disagreement, and printed as it came.
ghost use Rattle.std.specs.Prelude.{◌≡◌, ◌+◌, ◌<◌, ◌≤◌, ◌==◌, false, ◌++◌, length, IfSome, IfNone, IsSome, IsNone, IsSomeAnd, MatchOption};

use arrayvec::ArrayVec;

// What is left of a line, and nothing once a read has found something else: then each later read finds nothing, too.
#[derive(Clone, Copy)]
pub struct Line<'a> {
    pub rest: Option<&'a [u8]>,
}

// What is read from a line's next words.
pub trait FromLine: Sized {
    fn from_line(line: &mut Line<'_>) -> Option<Self>;
}

// What a digit is worth.
fn digit(b: u8) -> Option<u32>
    ensures { IfSome result (λ worth. worth < 16) }
{
    let decimal = u32::from(b).wrapping_sub(u32::from(b'0')); // most digits are of these, and one comparison is for both ends
    if decimal < 10 {
        return Some(decimal);
    }
    match b {
        b'a'..=b'f' => Some(u32::from(b - b'a') + 10),
        _ => None,
    }
}

// The number that digits write. Eight of them fit.
fn number(digits: &[u8]) -> Option<u32> {
    let mut number = 0;
    for b in digits {
        number = (number << 4) | digit(*b)?;
    }
    Some(number)
}

impl<'a> Line<'a> {
    pub fn new(text: &'a [u8]) -> Line<'a>
        ensures { IsSomeAnd result.rest (λ rest. rest.now ≡ text.now) }
    {
        Line { rest: Some(text) }
    }

    // Whether the line is read to its end.
    pub fn has_ended(&self) -> bool
        ensures { MatchOption self.now.rest (result ≡ false) (λ rest. result ≡ (length rest.now == 0)) }
    {
        self.rest.is_some_and(|rest| rest.is_empty())
    }

    // Goes on behind a text.
    pub fn skip(&mut self, text: &[u8]) -> Option<()>
        ensures { MatchOption self.new.rest (IsNone result) (λ new. IsSome result × IsSomeAnd self.old.rest (λ old. old.now ≡ text.now ++ new.now)) }
    {
        let rest = self.rest.take()?.strip_prefix(text)?;
        self.rest = Some(rest);
        Some(())
    }

    // The bytes before the next space.
    pub fn name(&mut self) -> Option<&'a [u8]>
        ensures { MatchOption self.new.rest (IsNone result) (λ new. IsSomeAnd result (λ name. IsSomeAnd self.old.rest (λ old. old.now ≡ name.now ++ new.now))) }
    {
        let line = self.rest.take()?;
        let space = line.iter().position(|b| *b == b' ')?;
        let (name, rest) = line.split_at(space);
        self.rest = Some(rest);
        Some(name)
    }

    // The number that `count` digits write.
    fn digits(&mut self, count: usize) -> Option<u32>
        ensures { MatchOption self.new.rest (IsNone result) (λ new. IsSome result × IsSomeAnd self.old.rest (λ old. length old.now ≡ count + length new.now)) }
    {
        let (digits, rest) = self.rest.take()?.split_at_checked(count)?;
        let number = number(digits)?;
        self.rest = Some(rest);
        Some(number)
    }

    pub fn read<T: FromLine>(&mut self) -> Option<T> {
        T::from_line(self)
    }

    // A word below a limit.
    pub fn below(&mut self, limit: u8) -> Option<u8>
        ensures { IfSome result (λ number. number < limit) }
    {
        let number = self.read::<u8>()?;
        (number < limit).then_some(number)
    }

    // How many elements a list has.
    fn count(&mut self, limit: usize) -> Option<usize>
        ensures limit { IfSome result (λ count. count ≤ limit) }
        ensures lost { IfNone self.old.rest (IsNone result) }
    {
        let count = u32::from_line(self)? as usize;
        (count <= limit).then_some(count)
    }

    // A list is its length, at most N, and then its elements.
    pub fn list<T: FromLine + Default + Drop, const N: usize>(&mut self) -> Option<ArrayVec<T, N>>
        ensures { IfNone self.old.rest (IsNone result) }
    {
        let mut list = ArrayVec::new();
        for _ in 0..self.count(N)? {
            list.try_push(self.read()?).ok()?;
        }
        Some(list)
    }

    // The byte that two digits write.
    pub fn byte(&mut self) -> Option<u8>
        ensures { MatchOption self.new.rest (IsNone result) (λ new. IsSome result × IsSomeAnd self.old.rest (λ old. length old.now ≡ 2 + length new.now)) }
    {
        let number = self.digits(2)?;
        Some((number % 256) as u8) // two digits fit
    }
}

impl FromLine for u32 {
    fn from_line(line: &mut Line<'_>) -> Option<u32>
        ensures { MatchOption line.new.rest (IsNone result) (λ new. IsSome result × IsSomeAnd line.old.rest (λ old. length old.now ≡ 9 + length new.now)) }
    {
        let (word, rest) = line.rest.take()?.split_at_checked(9)?; // once for the space and the digits: most of a text is words
        let number = number(word.strip_prefix(b" ")?)?;
        line.rest = Some(rest);
        Some(number)
    }
}

impl FromLine for u8 {
    fn from_line(line: &mut Line<'_>) -> Option<u8> {
        u8::try_from(line.read::<u32>()?).ok()
    }
}

impl FromLine for u16 {
    fn from_line(line: &mut Line<'_>) -> Option<u16> {
        u16::try_from(line.read::<u32>()?).ok()
    }
}

impl FromLine for usize {
    fn from_line(line: &mut Line<'_>) -> Option<usize> {
        Some(line.read::<u32>()? as usize)
    }
}

// Two words, the upper half first.
impl FromLine for u64 {
    fn from_line(line: &mut Line<'_>) -> Option<u64> {
        let upper = u64::from(line.read::<u32>()?);
        Some((upper << 32) | u64::from(line.read::<u32>()?))
    }
}

impl FromLine for bool {
    fn from_line(line: &mut Line<'_>) -> Option<bool> {
        Some(line.below(2)? == 1)
    }
}

impl<T: FromLine + Drop> FromLine for [T; 4] {
    fn from_line(line: &mut Line<'_>) -> Option<[T; 4]> {
        Some([line.read()?, line.read()?, line.read()?, line.read()?])
    }
}

#[cfg(test)]
mod tests {
    use super::*;
    use std::test::Fail;

    #[test]
    fn reads_a_list(rt: HostRuntime) -> Result<(), Fail> {
        let mut line = Line::new(b" 00000002 0000000a ffffffff 00000003");
        let list: ArrayVec<u32, 2> = line.list().ok_or("no list")?;
        assert_eq!(rt; list.as_slice(), [10u32, 4294967295].as_slice());
        let long: Option<ArrayVec<u32, 2>> = line.list();
        assert!(rt; long.is_none());
        let broken: Option<ArrayVec<u8, 2>> = Line::new(b" 00000002 00000001").list();
        assert!(rt; broken.is_none());
        let lost: Option<ArrayVec<u8, 2>> = Line { rest: None }.list();
        assert!(rt; lost.is_none());
        Ok(())
    }
}
