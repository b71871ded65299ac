// An accepted run, from the start image to the image that is handed back.
#![tactic(auto)]

ghost use Rattle.std.specs.Prelude.{◌≡◌, ◌≤◌, length};
ghost use Rattle.meaning.specs.Base.{in_front_of};
ghost use Rattle.slots.specs.Slots.{Stands};
ghost use Rattle.room.specs.Room.{LIVE, ROWS};
ghost use Rattle.transaction.specs.Handed.{committed, handed};
ghost use Rattle.transaction.specs.Transacts.{Runnable, Transacts};

use plan::Plan;
use processing::{Ended, Outcome};

// What was read off image, book and log when they were judged.
#[derive(Clone, Copy)]
pub struct ReadOff {
    pub image: image::Head,
    pub book: book::Frame,
    pub plan: Plan,
    pub operations: usize,
}

// A run is lent an output of at least 1,355 bytes and working room of at least 65,536.
pub const OUTPUT: usize = 1355;

pub const ROOM: usize = 65536;

// Whether a run hands its final image back.
fn commits(outcome: Outcome) -> bool
    ensures { result ≡ committed outcome }
{
    matches!(outcome, Outcome::Commit)
}

// The final image if the run commits, else the start image byte for byte.
fn hand_back(out: &mut [u8], image: &[u8], room: &[u8], outcome: Outcome)
    requires stands { Stands LIVE ROWS room.now }
    requires in_bounds { 1355 ≤ length out.old }
    requires image_len_bound { length image.now ≤ 1355 }
    ensures { out.new ≡ in_front_of (handed (committed outcome) image.now room.now)
        out.old }
{
    if commits(outcome) {
        output::put_image(out, room);
    } else {
        output::put_bytes(out, image);
    }
}

pub fn transact(
    image: &[u8],
    book: &[u8],
    log: &[u8],
    a: ReadOff,
    out: &mut [u8],
    room: &mut [u8],
) -> Ended
    requires runnable { Runnable image.now book.now a }
    requires in_bounds { 1355 ≤ length out.old }
    requires in_bounds_2 { 65536 ≤ length room.old }
    ensures { Transacts image.now book.now log.now a out.old out.new
        room.old room.new result }
{
    loading::load(room, image, a.image);
    let ended = processing::process(room, book, log, &a.plan, a.book.limit, a.operations);
    hand_back(out, image, room, ended.outcome);
    slots::clear(room, ROOM);
    ended
}
