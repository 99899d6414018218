// The machine's state as words that the caller lends: what stands where, read and written part by part.
// `[u64; 9153]` is what C lends (include/, exports), so it is the type of each call; a place is a number here as in specs/Words.antt, which has them all.
// A link is a number below 64 and a session one below 32, as C, the records and the words of sessions have them: a type around each would be made and undone
// at every loop and every word, so each call asks for the bound instead.
#![tactic(auto)]

mod fields;
mod listed;
mod rows;
mod sources;

ghost use Rattle.std.specs.Prelude.{◌≡◌};
ghost use Rattle.table.specs.Words.{empty_words};

pub use fields::block_at;
pub use listed::{append, count, packet_at, remove};
pub use rows::{entry_in, link_at, place_at, put_link, put_place};
pub use sources::{active_at, hop_of, hops_at, put_hops, put_path, put_source, source_at, stop_at};

// The empty table: every word is 0.
pub fn clear(t: &mut [u64; 9153])
    ensures { t.new ≡ empty_words }
{
    *t = [0; 9153];
}
