ghost use Rattle.std.specs.Prelude.{◌≡◌, ◌≤◌, ◌<◌, ◌^◌, ◌/◌, ◌-◌, ◌++◌, ◌∷◌, [], length, drop, OnErr, OnOk};
ghost use Rattle.grid_base.specs.declared.TheConstants.{DECIMALS_MAX};
ghost use Rattle.line_text.specs.Numbers as spec;
ghost use Rattle.line_text.specs.WrittenLines.{Appends};

use grid_base::NoMemory;
use itoa::write_digits;

// The longest text has a sign, ten digits and a point.
const ROOM: usize = 24;

// Writes the last digits at the end of the buffer, and answers the number before them.
fn put_places(size: u64, decimals: usize, buffer: &mut [u8]) -> u64
    requires room { length buffer.old ≡ ROOM }
    requires places { decimals ≤ DECIMALS_MAX }
    ensures front { result ≡ size / 10 ^ decimals }
    ensures smaller { result ≤ size }
    ensures text { drop (24 - decimals) buffer.new ≡ spec.last_digits decimals size }
{
    let mut front = size;
    for k in 0..decimals {
        buffer[ROOM - 1 - k] = b'0' + (front % 10) as u8;
        front /= 10;
    }
    front
}

// Writes the text of a size at the end of the buffer, and answers where it begins.
fn put_size(size: u64, decimals: u8, buffer: &mut [u8]) -> usize
    requires room { length buffer.old ≡ ROOM }
    requires places { decimals ≤ DECIMALS_MAX }
    requires small { size < 10 ^ 10 }
    ensures text { drop result buffer.new ≡ spec.size_text decimals size }
    ensures within { result ≤ ROOM }
    ensures after_sign { 0 < result }
{
    if decimals == 0 {
        return write_digits(size, buffer, ROOM);
    }
    let places = usize::from(decimals);
    let front = put_places(size, places, buffer);
    let point = ROOM - 1 - places;
    buffer[point] = b'.';
    write_digits(front, buffer, point)
}

/// Appends the text of `value` divided by 10 ^ decimals: `-` where it is negative, the whole part, and with decimals above 0
/// a point and exactly so many digits. On refusal `into` is as before.
pub fn fixed(value: i32, decimals: u8, into: &mut Vec<u8>) -> Result<(), NoMemory>
    requires { decimals ≤ DECIMALS_MAX }
    ensures ok { Appends result into.old into.new (spec.fixed_text decimals value) }
    ensures err { OnErr result (into.new.items ≡ into.old.items) }
{
    let mut buffer = [0; ROOM];
    let size = u64::from(value.unsigned_abs());
    let mut start = put_size(size, decimals, &mut buffer);
    if value < 0 {
        start -= 1;
        buffer[start] = b'-';
    }
    let (_, text) = buffer.split_at(start);
    into.extend_from_slice(text)?;
    Ok(())
}

/// Appends the text of a value on the grid, as `fixed` writes it, and the byte after it. On refusal `out` is as before.
pub fn put_coordinate(out: &mut Vec<u8>, value: i32, decimals: u8, end: u8) -> Result<(), NoMemory>
    requires { decimals ≤ DECIMALS_MAX }
    ensures ok { OnOk result
        (out.new.items ≡ out.old.items ++ spec.fixed_text decimals value ++ end ∷ []) }
    ensures err { OnErr result (out.new.items ≡ out.old.items) }
{
    let start = out.len();
    fixed(value, decimals, out)?;
    match out.push(end) {
        Ok(()) => Ok(()),
        Err(_) => {
            out.truncate(start);
            Err(NoMemory)
        }
    }
}
