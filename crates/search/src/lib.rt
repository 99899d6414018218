// The search for sessions that cross a chosen link (01, "The direct calculation").
#![tactic(auto)]

ghost use Rattle.std.specs.Prelude.{◌≡◌, ◌<◌};
ghost use Rattle.search.specs.Crossing.{AllAt, FirstAt, after_of};

// The first session of left that crosses one of the links. 01: the search for a session that crosses a chosen link stops at its first hit, out of both
// loops. 01 names this form, two loops that are left by a label, so no chain stands in its place.
pub fn first_at(path: &[u8; 256], left: u32, links: u64) -> Option<u32>
    ensures { FirstAt path.now left links result }
{
    let mut found = None;
    'search: for s in sessions::each(left) {
        let from = s as usize * 8;
        for e in &path[from..from + 8] {
            if sessions::has(links, u32::from(*e)) {
                found = Some(s);
                break 'search;
            }
        }
    }
    found
}

// The sessions of a set that come after session s.
fn after(left: u32, s: u32) -> u32
    requires { s < 32 }
    ensures { result ≡ after_of left s }
{
    let before = sessions::only::<u32>(s) - 1;
    sessions::cut(left & !before, s)
}

// All sessions of opens that cross one of the links. Where the first one is s, those before s cross none.
pub fn all_at(path: &[u8; 256], opens: u32, links: u64) -> u32
    ensures { AllAt path.now opens links result }
{
    if links == 0 {
        return 0;
    }
    let mut found: u32 = 0;
    let mut left = opens;
    while let Some(s) = first_at(path, left, links) {
        found = sessions::put(found, s);
        left = after(left, s);
    }
    found
}
