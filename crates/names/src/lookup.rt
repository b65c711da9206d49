// Names at their places in a sheet: one by its number, and the number of one. The names are those of the users or
// those of the permissions, and so are the numbers: one search serves both.
ghost use Rattle.std.specs.Prelude.{◌≡◌, ◌≤◌, length};
ghost use Rattle.names.specs.FoundBetween.{FoundBetween};
ghost use Rattle.names.specs.NamesAt.{Inside, PartThere, name_there, all_names, Apart, name_number, found};

use places::{from_of, to_of};
use text::same_name;

// What stands at place i: the part of the sheet itself. The places are lent, so that no loop copies them.
pub fn part_at<'a, 'b>(s: &'a [u8], places: &'b [u64], i: usize) -> &'a [u8]
    requires { PartThere s.now places.now i }
    ensures { result.now ≡ name_there s.now places.now i }
{
    let place = places[i];
    let start = from_of(place);
    let end = to_of(place);
    &s[start..end]
}

// The number of a name among the names from number `low` up to `high`.
fn find_between<'a, 'b>(
    s: &'a [u8],
    places: &'b [u64],
    low: usize,
    high: usize,
    name: &'a [u8],
) -> Option<usize>
    requires { Inside s.now places.now × (high ≤ length places.now) }
    ensures { FoundBetween s.now places.now name.now low high result }
{
    for i in low..high {
        if same_name(name, part_at(s, places, i)) {
            return Some(i);
        }
    }
    None
}

// The number of a name among names no two of which are equal. Those from number `first` on are looked at first: a
// caller whose names rise says the last number, and the answer is the same whatever it says.
pub fn find_from<'a, 'b>(
    s: &'a [u8],
    places: &'b [u64],
    first: usize,
    name: &'a [u8],
) -> Option<usize>
    requires { Inside s.now places.now × Apart s.now places.now (length places.now) }
    ensures { result ≡ found (name_number (all_names s.now places.now)
        name.now) }
{
    let count = places.len();
    let late = find_between(s, places, first, count, name);
    if let Some(i) = late {
        return Some(i);
    }
    let end = if first < count { first } else { count };
    find_between(s, places, 0, end, name)
}
