// Makes the calls of a script on one session: a call a line on standard input, an answer a line on standard output.
//
// - `load FILE` is answered by `load NUMBER USERS PERMISSIONS GRANTS`,
// - `reduce`, with nothing behind it, by `reduce NUMBER K W`,
// - `search N` by `search NUMBER STEPS PLACED BACK CLOSED ROLES BOUND STATE`,
// - `write LENGTH` by `write NUMBER COUNT DIGEST`,
// - `check SHEETFILE BOOKFILE` by `check NUMBER ROLES WITNESSLINES`,
// - `newcomer SHEETFILE BOOKFILE LINEFILE LENGTH` by `newcomer NUMBER COUNT DIGEST`.
//
// NUMBER is 0 for a result, else the number of the refusal; the counts are then 0 and STATE is `-`. A writing and a
// newcomer are lent LENGTH bytes, at most 262,144, byte i being (31 i + 7) mod 256 before the call; DIGEST is the
// Adler-32 of all of them after it, in 8 hexadecimal digits. One blank stands behind each word but the last. A line
// that is no call is answered by `?`, and so is a call whose file cannot be read: standard error says why. A script may
// be of any length, a line of at most 8,192 bytes. A script is read byte by byte, so that a call is answered before the
// next one is there.

#![tactic(auto)]

mod calls;
mod input;
mod say;
mod script;
mod space;

use input::{LINE_LIMIT, read_line};
use script::answer;
use session::Session;

// A proved loop ends, and nothing says that a script does: no run counts all its turns.
fn main(rt: HostRuntime) {
    let mut session = Session::fresh();
    let mut line = [0u8; LINE_LIMIT];
    for _ in 0..u64::MAX {
        let Some(count) = read_line(&mut line) else {
            return;
        };
        session = answer(&rt, session, &line[..count]);
    }
}
