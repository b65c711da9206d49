// Cells read eight at once: the eight bytes of each four as one number.
ghost use Rattle.std.specs.Prelude.{◌≡◌, ◌+◌, ◌*◌, ◌^◌, ◌≤◌, ◌<◌, length, IfSome};
ghost use Rattle.std.specs.Int.Bits.{bit_or};
ghost use Rattle.bits.specs.Counting.{one_if};
ghost use Rattle.bits.specs.Bit.{bit, word_bits};
ghost use Rattle.cells_read.specs.CellsWord.{WordOfCells};
ghost use Rattle.cells_read.specs.FourRead.{four_set, SetsCells, set_word, FourBytes, EightBytes, SetOf};

// Four cells that are not set, each behind a comma: the bytes `,0,0,0,0`, the first the lowest.
const NO_CELLS: u64 = 0x302c_302c_302c_302c;

// Position p of a number, and no other.
fn kept_at(n: u64, p: usize) -> u64
    requires { p < word_bits }
    ensures { result ≡ one_if (bit n p) * 2 ^ p }
{
    n & (1 << p)
}

// Positions 8, 24, 40 and 56 of a number, and no others: in the number of four cells, those of the cells that are set.
fn kept_cells(n: u64) -> u64
    ensures { result ≡ four_set (bit n 8) (bit n 24) (bit n 40) (bit n 56) }
{
    let first = kept_at(n, 8);
    let second = kept_at(n, 24);
    let third = kept_at(n, 40);
    let fourth = kept_at(n, 56);
    first + second + third + fourth
}

// What the number of four cells has beyond `NO_CELLS`: the positions 8, 24, 40, 56 of those that are set, not yet side
// by side; nothing where it is the number of no four cells.
fn set_of(n: u64) -> Option<u64>
    ensures { SetOf n result }
{
    let set = kept_cells(n);
    if n != NO_CELLS + set {
        return None;
    }
    Some(set)
}

// The positions of twice four cells, side by side, of two numbers that have no others. The second number's are moved up
// by four; then each cell is put beside the one before it, so that a number's second stands by its first and its fourth
// by its third, and the later pair is put beside the earlier. The remainder drops what else was moved.
fn side_by_side(first: u64, second: u64) -> u64
    requires { SetsCells first × SetsCells second }
    ensures { result ≡ bit_or (set_word first) (set_word second * 2 ^ 4) }
{
    let all = first + second * 16;
    let pairs = all + (all >> 15);
    ((pairs >> 8) + (pairs >> 38)) % 256
}

// Four bytes as one number, the first the lowest.
fn four_bytes(a: u8, b: u8, c: u8, d: u8) -> u64
    ensures { FourBytes a b c d result }
{
    a as u64 + (b as u64) * 0x100 + (c as u64) * 0x1_0000 + (d as u64) * 0x100_0000
}

// Eight bytes from a place on as one number, the first the lowest.
fn eight_bytes(s: &[u8], at: usize) -> u64
    requires { at + 8 ≤ length s.now }
    ensures { EightBytes s.now at result }
{
    let low = four_bytes(s[at], s[at + 1], s[at + 2], s[at + 3]);
    let high = four_bytes(s[at + 4], s[at + 5], s[at + 6], s[at + 7]);
    low + high * 0x1_0000_0000
}

// Reads four cells from a place on.
fn four_cells(s: &[u8], at: usize) -> Option<u64>
    requires { at + 8 ≤ length s.now }
    ensures small { IfSome result (λ w. w < 2 ^ 4) }
    ensures cells { WordOfCells s.now at 4 result }
{
    let set = set_of(eight_bytes(s, at))?;
    Some(side_by_side(set, 0))
}

// Reads eight cells from a place on.
fn eight_cells(s: &[u8], at: usize) -> Option<u64>
    requires { at + 16 ≤ length s.now }
    ensures small { IfSome result (λ w. w < 2 ^ 8) }
    ensures cells { WordOfCells s.now at 8 result }
{
    let first = set_of(eight_bytes(s, at))?;
    let second = set_of(eight_bytes(s, at + 8))?;
    Some(side_by_side(first, second))
}

// Reads so many times eight cells from a place on.
fn eights_word(s: &[u8], at: usize, eights: usize) -> Option<u64>
    requires { (at + 2 * (8 * eights) ≤ length s.now) × (8 * eights ≤ word_bits) }
    ensures { WordOfCells s.now at (8 * eights) result }
{
    let mut word = 0;
    for i in 0..eights {
        let eight = eight_cells(s, at + 16 * i)?;
        word |= eight << (8 * i);
    }
    Some(word)
}

// Reads so many times four cells from a place on: eight by eight, and the last four where the number of fours is odd.
pub fn fours_word(s: &[u8], at: usize, fours: usize) -> Option<u64>
    requires { (at + 2 * (4 * fours) ≤ length s.now) × (4 * fours ≤ word_bits) }
    ensures { WordOfCells s.now at (4 * fours) result }
{
    let eights = fours / 2;
    let word = eights_word(s, at, eights)?;
    if fours % 2 == 0 {
        return Some(word);
    }
    let last = four_cells(s, at + 16 * eights)?;
    Some(word | (last << (8 * eights)))
}
