// From a text of due flushes to a list: the 20 bytes of the descriptor, and the fingerprints.
ghost use Rattle.std.specs.Prelude.{◌≡◌, ◌*◌, length};
ghost use Rattle.capacity.specs.Capacity.{max_keys};

use crate::{held, messages};
use capacity::MAX_KEYS;
use descriptor::{DESCRIPTOR_SIZE, Descriptor};
use due_text::keys;
use layout::limits::{MAX_SLOTS, MAX_STARTS};
use scratch::Scratch;
use std::random::RandomSource;
use std::rt::Files;
use std::{fmt, io};

const MOST_KEYS: usize = MAX_KEYS as usize;

const ATTEMPTS: u32 = 1000;

// Sixty-four bytes for each key. A text is shorter.
const TEXT_ROOM: usize = 64 * MOST_KEYS;

// Only the length is promised, so that nothing above computes with so many zeros.
fn text_room() -> [u8; TEXT_ROOM]
    ensures { 64 * max_keys ≡ length result }
{
    [0; TEXT_ROOM]
}

// Whether the list was written, and read back as it should be; if not, it is said why.
pub fn run<R: Files + Print + Eprint + RandomSource>(
    rt: &R,
    text: &str,
    list: &str,
) -> io::Result<bool> {
    let Some(packed) = pack(rt, text, list) else {
        return Ok(false);
    };
    println!(rt; "{list}: {packed}")?;
    Ok(true)
}

// What was packed. As `keys 13, fingerprints 48, attempt 1`.
#[derive(Clone, Copy)]
struct Packed {
    keys: usize,
    fingerprints: usize,
    attempt: u32,
}

impl fmt::Display for Packed {
    fn fmt<W: fmt::Write>(&self, f: &mut fmt::Formatter<W>) -> fmt::Result {
        write!(
            f,
            "keys {}, fingerprints {}, attempt {}",
            self.keys, self.fingerprints, self.attempt
        )
    }
}

fn pack<R: Files + Eprint + RandomSource>(rt: &R, text: &str, list: &str) -> Option<Packed> {
    saving::may_replace(rt, text.as_bytes(), list.as_bytes())?;
    let mut room = text_room();
    let n = files::read(rt, text.as_bytes(), &mut room).ok()?;
    pack_text(rt, &room[..n], list)
}

fn pack_text<R: Files + Eprint + RandomSource>(rt: &R, text: &[u8], list: &str) -> Option<Packed> {
    let mut room = [0u64; MOST_KEYS];
    match keys::read(text, &mut room) {
        Ok(count) => pack_keys(rt, &room[..count], list),
        Err(bad) => {
            messages::bad_line(rt, bad);
            None
        }
    }
}

fn pack_keys<R: Files + Eprint + RandomSource>(rt: &R, keys: &[u64], list: &str) -> Option<Packed> {
    if keys.is_empty() {
        messages::no_flush(rt, list);
    }
    let mut fingerprints = [0u8; MAX_SLOTS];
    let mut scratch = Scratch {
        lone: &mut [0; MAX_SLOTS],
        counts: &mut [0; MAX_SLOTS],
        sums: &mut [0; MAX_SLOTS],
        positions: &mut [0; MOST_KEYS],
        order: &mut [0; MOST_KEYS + 1],
        starts: &mut [0; MAX_STARTS],
    };
    let built = bfuse8::build(keys, ATTEMPTS, &mut fingerprints, &mut scratch)
        .map_err(|why| messages::refused(rt, why))
        .ok()?;
    let slots = fingerprints.len().min(built.slots as usize);
    save(rt, built.descriptor, &fingerprints[..slots], list)?;
    read_back(rt, list, keys)?;
    Some(Packed {
        keys: keys.len(),
        fingerprints: slots,
        attempt: built.attempt,
    })
}

fn save<R: Files + Eprint + RandomSource>(
    rt: &R,
    d: Descriptor,
    fingerprints: &[u8],
    list: &str,
) -> Option<()> {
    let mut bytes = [0u8; DESCRIPTOR_SIZE];
    descriptor::write(d, &mut bytes)
        .map_err(|why| messages::refused(rt, why))
        .ok()?;
    saving::write(rt, list.as_bytes(), &bytes, fingerprints)
}

// That the file that now has the name answers yes to every key. It may be another program's; then it is said.
fn read_back<R: Files + Eprint>(rt: &R, list: &str, keys: &[u64]) -> Option<()> {
    let mut room = held::list_room();
    let Ok(n) = files::read(rt, list.as_bytes(), &mut room) else {
        messages::not_read_back(rt, list);
        return None;
    };
    if !held::all(&room[..n], keys) {
        messages::not_held(rt, list);
        return None;
    }
    Some(())
}
