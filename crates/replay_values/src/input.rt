// The text of a program's input, and its lines.
ghost use Rattle.std.specs.Prelude.{◌≡◌, ◌<◌, ◌≤◌, length, take, IfOk, IfSome};
ghost use Rattle.std.specs.Io.KnownBytes.{Consumes, IsAtEnd};

use std::io;
use std::io::{Read, Write};

// One more than the longest input that the programs take.
pub const SPACE: usize = 524288;

// Room for the input, an array: the programs ask for no memory, which could be refused.
fn space() -> [u8; SPACE]
    ensures limit { SPACE ≡ 524288 }
    ensures room { 524288 ≡ length result }
{
    [0; SPACE]
}

// Reads until buf is full or the input ends, and gives how many bytes it put at the start of buf. A `while`, since a read gives as
// many bytes as it likes: no range or iterator has its steps.
pub fn read_full<R: Read>(input: &mut R, buf: &mut [u8]) -> io::Result<usize>
    ensures within { IfOk result (λ n. n ≤ length buf.new) }
    ensures bytes { IfOk result (λ n. Consumes (R.remaining input.old) (R.remaining input.new) (take n buf.new)) }
    ensures whole { IfOk result (λ n. n < length buf.new → IsAtEnd (R.remaining input.new)) }
{
    let mut done = 0;
    while done < buf.len() {
        let n = input.read(&mut buf[done..])?;
        if n == 0 {
            break;
        }
        done += n;
    }
    Ok(done)
}

// The whole input, at the start of `space`, where it doesn't fill it.
pub fn read_text<'a, R: Read>(input: &mut R, space: &'a mut [u8]) -> io::Result<Option<&'a [u8]>>
    ensures short { IfOk result (λ read. IfSome read (λ text. length text.now < length space.old)) }
    ensures bytes { IfOk result (λ read. IfSome read (λ text. Consumes (R.remaining input.old) (R.remaining input.new) text.now)) }
    ensures whole { IfOk result (λ read. IfSome read (λ text. IsAtEnd (R.remaining input.new))) }
{
    let n = read_full(input, space)?;
    if n == space.len() {
        return Ok(None);
    }
    Ok(Some(&space[..n]))
}

// Hands on the whole input, or says that it is too long.
pub fn with_text<R: Read, W: Write, F: FnOnce(&mut W, &[u8]) -> io::Result<()>>(
    input: &mut R,
    out: &mut W,
    replay: F,
) -> io::Result<()>
    requires { F.IsAlwaysCallable replay }
{
    match read_text(input, &mut space())? {
        Some(text) => replay(out, text),
        None => out.write_all(b"input too long\n"),
    }
}

// Hands on each line of a text, without its line break, and its number from 1.
pub fn each_line<'a, F: FnMut(u64, &'a [u8]) -> io::Result<()>>(
    text: &'a [u8],
    mut visit: F,
) -> io::Result<()>
    requires { F.IsAlwaysCallable visit }
{
    for (line, number) in text.split_inclusive(|b| *b == b'\n').zip(1u64..) {
        visit(number, line.strip_suffix(b"\n").unwrap_or(line))?;
    }
    Ok(())
}

#[cfg(test)]
mod tests {
    use super::*;
    use std::test::Fail;

    #[test]
    fn reads_what_is_shorter(rt: HostRuntime) -> Result<(), Fail> {
        let mut space = [0u8; 4];
        let mut input: &[u8] = &[1, 2, 3];
        let text = read_text(&mut input, &mut space)?.ok_or("too long")?;
        assert_eq!(rt; text, [1u8, 2, 3].as_slice());
        let mut input: &[u8] = &[1, 2, 3, 4];
        assert!(rt; read_text(&mut input, &mut space)?.is_none());
        Ok(())
    }
}
