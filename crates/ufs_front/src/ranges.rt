// Parts of bytes that have zeros behind them.
ghost use Rattle.std.specs.Prelude.{◌≡◌, ◌≤◌, ◌+◌, ◌-◌, ◌++◌, length, replicate, take, drop};
ghost use Rattle.std.specs.Vec.{vec_capacity};
ghost use Rattle.ufs_front.specs.Padded.{padded};

// Puts bytes in the place of as many.
fn overwrite(all: &mut [u8], at: usize, bytes: &[u8])
    requires { at + length bytes.now ≤ length all.old }
    ensures { all.new ≡ take at all.old ++ (bytes.now ++ drop (at + length bytes.now) all.old) }
{
    all[at..at + bytes.len()].copy_from_slice(bytes);
}

// Has zeros behind them, up to so many.
fn pad(held: &mut Vec<u8>, count: usize)
    requires { count ≤ vec_capacity held.old }
    ensures items { held.new.items ≡ padded count held.old.items }
    ensures capacity { vec_capacity held.old ≤ vec_capacity held.new }
{
    if held.len() < count {
        held.resize(count, 0).unwrap();
    }
}

// Puts bytes there, with zeros before them where there are fewer.
pub(crate) fn put_at(held: &mut Vec<u8>, at: usize, bytes: &[u8])
    requires { at + length bytes.now ≤ vec_capacity held.old }
    ensures items { let before = padded (at + length bytes.now) held.old.items in held.new.items ≡ take at before ++ (bytes.now ++ drop (at + length bytes.now) before) }
    ensures capacity { vec_capacity held.old ≤ vec_capacity held.new }
{
    pad(held, at + bytes.len());
    overwrite(held, at, bytes);
}

fn clear(buf: &mut [u8])
    ensures { buf.new ≡ replicate (length buf.old) 0 }
{
    for byte in buf.iter_mut() {
        *byte = 0;
    }
}

fn clear_behind(buf: &mut [u8], count: usize)
    requires { count ≤ length buf.old }
    ensures { buf.new ≡ take count buf.old ++ replicate (length buf.old - count) 0 }
{
    clear(&mut buf[count..]);
}

fn put_first(buf: &mut [u8], bytes: &[u8])
    requires { length bytes.now ≤ length buf.old }
    ensures { buf.new ≡ bytes.now ++ drop (length bytes.now) buf.old }
{
    buf[..bytes.len()].copy_from_slice(bytes);
}

// Copies as many bytes as the buffer takes, from there on, with zeros behind the last.
pub(crate) fn copy_out(held: &[u8], at: usize, buf: &mut [u8])
    ensures { buf.new ≡ padded (length buf.old) (take (length buf.old) (drop at held.now)) }
{
    let there = &held[at.min(held.len())..];
    let count = there.len().min(buf.len());
    put_first(buf, &there[..count]);
    clear_behind(buf, count);
}
