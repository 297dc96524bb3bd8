//! A message that is taken block by block: its whole blocks where they stand, and a buffer for the bytes between pieces.

ghost use Rattle.std.specs.Prelude.{◌≡◌, ℕ, ◌+◌, ◌%◌, ◌^◌, ◌<◌, ◌≤◌, List, ◌++◌, length, take, drop};
ghost use Rattle.digest.specs.Blocks.{Holds, left, whole};

/// A hash function that takes its message in blocks of `N` bytes.
pub trait BlockHash<const N: usize> {
    /// What the blocks so far leave.
    type State;

    /// The state after one more block.
    ghost step: { Self.State → List ℕ → Self.State };

    /// Takes one block.
    fn compress(state: &mut Self::State, block: &[u8; N])
        ensures { state.new ≡ step state.old block.now };

    // A block has bytes, and fits in memory.
    ghost nonempty: { 0 < N };

    ghost fits: { N < 2 ^ 63 };
}

/// Takes the whole blocks of `bytes` where they stand, and gives the bytes after them.
pub fn absorb<'a, B: BlockHash<N>, const N: usize>(
    state: &mut B::State,
    bytes: &'a [u8],
) -> &'a [u8]
    ensures state { state.new ≡ whole B.step N state.old bytes.now }
    ensures rest { result.now ≡ left N bytes.now }
    ensures len { length result.now ≡ length bytes.now % N }
{
    let (blocks, rest) = bytes.as_chunks::<N>();
    for block in blocks {
        B::compress(state, block);
    }
    rest
}

/// Writes `part` over the bytes of `buffer` from `at` on.
fn put(buffer: &mut [u8], at: usize, part: &[u8])
    requires { at + length part.now ≤ length buffer.old }
    ensures { buffer.new ≡ take at buffer.old ++ (part.now ++ drop (at + length part.now) buffer.old) }
{
    buffer[at..at + part.len()].copy_from_slice(part);
}

/// Takes `piece` after `taken` bytes, of which those after the last whole block stand in front of `buffer`, and gives how many
/// stand there now.
// Kept: state, buffer and number apart, since they are fields of a struct that C lays out flat.
pub fn fill<B: BlockHash<N>, const N: usize>(
    state: &mut B::State,
    buffer: &mut [u8; N],
    taken: u64,
    piece: &[u8],
) -> usize
    ensures short { result < N }
    ensures took { (start : B.State) (bs : List ℕ) → Holds B.step N start state.old buffer.old (taken % N) bs
        → Holds B.step N start state.new buffer.new result (bs ++ piece.now) }
{
    let used = (taken % N as u64) as usize;
    let room = N - used;
    if piece.len() < room {
        put(buffer, used, piece);
        return used + piece.len();
    }
    let (front, back) = piece.split_at(room);
    put(buffer, used, front);
    B::compress(state, buffer);
    let rest = absorb::<B, N>(state, back);
    put(buffer, 0, rest);
    rest.len()
}
