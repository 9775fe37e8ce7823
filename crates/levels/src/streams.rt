ghost use Rattle.std.specs.Prelude.{◌≡◌, ℕ, ◌*◌, ◌/◌, ◌<◌, max, length, ◌≢◌, slice_index};
ghost use Rattle.gather.specs.Selections.{selection};
ghost use Rattle.levels.specs.Planes.{bit_at};
ghost use Rattle.levels.specs.Streams.{Added, from, within};

use gather::Masks;

/// Adds the bits of `v` to word `i`.
pub(crate) fn or_word(ws: &mut [u64], i: usize, v: u64)
    requires { i < length ws.old }
    ensures bits { (d : ℕ) → bit_at ws.new d ≡ max (bit_at ws.old d) (within i v d) }
    ensures words { (j : ℕ) → (j ≢ i) → slice_index ws.new j ≡ slice_index ws.old j }
{
    ws[i] |= v;
}

/// Adds the bits of `v` from position `k` on, as far as the words reach.
fn append(words: &mut [u64], k: usize, v: u64)
    requires { k / 64 < length words.old }
    ensures { (d : ℕ) → d < 64 * length words.old → bit_at words.new d ≡ max (bit_at words.old d) (from k v d) }
{
    let place = k % 64;
    or_word(words, k / 64, v << place);
    if k / 64 + 1 < words.len() {
        or_word(words, k / 64 + 1, (v >> 1) >> (63 - place));
    }
}

/// Adds the bits of a word to two streams of a room: those that `zeros` selects from position `lo` on, those that `ones`
/// selects from `hi` on.
pub(crate) fn part_word(room: &mut [u64], lo: usize, hi: usize, x: u64, zeros: &Masks, ones: &Masks)
    requires { (lo / 64 < length room.old) × (hi / 64 < length room.old) }
    ensures { Added (selection zeros.now) (selection ones.now) x lo hi (64 * length room.old) (bit_at room.old) (bit_at room.new) }
{
    append(room, lo, zeros.gather(x));
    append(room, hi, ones.gather(x));
}
