// The numbers of a line, in decimal: `7`, or `200*7` for two hundred times 7.

// The most numbers of a line.
pub const MOST: usize = 8192;

// Room for the numbers of a line, of any size or as bytes. Those that there are stand at its front.
// Kept: arrays, and no `ArrayVec`, which takes one number after the other: a script of long repeats takes three times as long with it.
pub type Numbers<T> = [T; MOST];

// The value of a digit.
fn digit(byte: u8) -> Option<usize> {
    byte.is_ascii_digit().then(|| usize::from(byte - b'0'))
}

// A number in digits, modulo 2^64.
// Kept: digit by digit, since a number past 2^64 is read too, which `parse` refuses.
fn number(text: &[u8]) -> Option<usize> {
    if text.is_empty() {
        return None;
    }
    text.iter().try_fold(0usize, |value, &byte| {
        Some(value.wrapping_mul(10).wrapping_add(digit(byte)?))
    })
}

// How many times a number stands there, and the number.
fn repeat(text: &[u8]) -> Option<(usize, usize)> {
    match text.iter().position(|byte| *byte == b'*') {
        None => Some((1, number(text)?)),
        Some(star) => Some((number(&text[..star])?, number(&text[star + 1..])?)),
    }
}

// Puts the number of a text, or the repeated number, behind the first n numbers. Answers how many there are then; None for any other
// text, or too many numbers.
pub fn read(text: &[u8], numbers: &mut Numbers<usize>, n: usize) -> Option<usize> {
    let (times, number) = repeat(text)?;
    let end = n.checked_add(times)?;
    numbers.get_mut(n..end)?.fill(number);
    Some(end)
}

// Numbers as bytes, put at the front of the room for them. None where one is too large for a byte, or they are too many.
pub fn to_bytes<'a>(numbers: &[usize], room: &'a mut Numbers<u8>) -> Option<&'a [u8]> {
    let bytes = room.get_mut(..numbers.len())?;
    for (byte, &number) in bytes.iter_mut().zip(numbers) {
        *byte = u8::try_from(number).ok()?;
    }
    Some(bytes)
}
