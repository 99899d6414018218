use lent::After;
use links::Place;
use tasks::Kind;

// The card is link 0.
pub fn after_packet(card: Place, s: u32, kind: Kind) -> Place {
    let After { link, entries, .. } = lent::step_link_plain(0, s, kind, card.link, card.entries);
    Place { link, entries }
}
