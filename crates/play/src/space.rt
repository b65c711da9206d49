// The bytes that a writing or a newcomer is lent.
ghost use Rattle.std.specs.Prelude.{◌≡◌, ◌<◌};
ghost use Rattle.play.specs.Space.{Patterned, pattern, space_limit};
ghost use Rattle.play.specs.Lengths.{LengthWithin};

// The bytes that can be lent, at most.
const SPACE_LIMIT: usize = 262_144;

// The length that a word says: a number, and no more bytes than there are.
pub fn length_of(word: &[u8]) -> Option<usize>
    ensures { LengthWithin result }
{
    let length = digits::read_budget(word)? as usize;
    if SPACE_LIMIT < length {
        return None;
    }
    Some(length)
}

// The byte at a place before a call.
fn pattern_byte(i: usize) -> u8
    requires { i < space_limit }
    ensures { result ≡ pattern i }
{
    ((31 * i + 7) % 256) as u8
}

// The bytes before a call.
pub fn patterned() -> [u8; SPACE_LIMIT]
    ensures { Patterned result space_limit }
{
    let mut space = [0u8; SPACE_LIMIT];
    for i in 0..SPACE_LIMIT {
        space[i] = pattern_byte(i);
    }
    space
}
