// The bytes of a sheet.
ghost use Rattle.std.specs.Prelude.{◌≡◌, ◌&&◌, eqb, ltb, length, get_or};
ghost use Rattle.spec.specs.Text.{name_byte, lower, allowed_byte};
ghost use Rattle.text.specs.Line.{separator};

pub const COMMA: u8 = b',';

pub const LINE_FEED: u8 = b'\n';

// A capital and its small letter leave the same when they are divided by this.
pub const LETTERS: u8 = 32;

// Whether b ends a field.
pub fn is_separator(b: u8) -> bool
    ensures { result ≡ separator b }
{
    b == COMMA || b == LINE_FEED
}

// Whether b is a byte of a name.
#[tactic(auto, unfolding(spec::specs::Text::name_byte))]
pub fn is_name_byte(b: u8) -> bool
    ensures { result ≡ name_byte b }
{
    (b'A'..=b'Z').contains(&b)
        || (b'a'..=b'z').contains(&b)
        || (b'0'..=b'9').contains(&b)
        || matches!(b, b'_' | b'-' | b'.')
}

// A byte with `A-Z` read as `a-z`.
#[tactic(auto, unfolding(spec::specs::Text::lower))]
pub fn lower_byte(byte: u8) -> u8
    ensures { result ≡ lower byte }
{
    match byte {
        b'A'..=b'Z' => b'a' + (byte - b'A'),
        _ => byte,
    }
}

// Whether b is a byte of a sheet.
#[tactic(auto, unfolding(spec::specs::Text::allowed_byte))]
pub fn is_allowed(b: u8) -> bool
    ensures { result ≡ allowed_byte b }
{
    is_name_byte(b) || is_separator(b)
}

// Whether this byte stands at a place of a text.
pub fn stands_at(s: &[u8], at: usize, b: u8) -> bool
    ensures { result ≡ (ltb at (length s.now) && eqb (get_or s.now at 0) b) }
{
    at < s.len() && s[at] == b
}
