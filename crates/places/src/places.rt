// Where the names of a list stand in a sheet: each place is one number.
ghost use Rattle.std.specs.Prelude.{◌≡◌, ◌≤◌, ◌<◌, length, take};
ghost use Rattle.places.specs.Places.{place_base, place_of, from_of, to_of, no_places};

use numbers::USER_LIMIT;

// A place is the number of its first byte times this, and the number of the byte after its last.
const PLACE_BASE: u64 = 4_294_967_296;

// The places of the names, with room for as many names as there can be users.
#[repr(C)]
#[derive(Clone, Copy)]
pub struct Places {
    pub at: [u64; USER_LIMIT],
}

impl Places {
    // Room for places, none of them noted.
    #[tactic(auto, unfolding(spec::specs::Limits::user_limit))]
    pub fn none() -> Self
        ensures { result ≡ no_places }
    {
        Self {
            at: [0; USER_LIMIT],
        }
    }
}

// The place of the bytes from one up to another.
pub fn place_of(from: usize, to: usize) -> u64
    requires { (from < place_base) × (to < place_base) }
    ensures { result ≡ place_of from to }
{
    from as u64 * PLACE_BASE + to as u64
}

// The first byte of a place.
pub fn from_of(place: u64) -> usize
    ensures { result ≡ from_of place }
{
    (place / PLACE_BASE) as usize
}

// The byte after the last of a place.
pub fn to_of(place: u64) -> usize
    ensures { result ≡ to_of place }
{
    (place % PLACE_BASE) as usize
}

// The first places of an array.
pub fn first_places(places: &[u64], n: usize) -> &[u64]
    requires { n ≤ length places.now }
    ensures { result.now ≡ take n places.now }
{
    &places[..n]
}
