// A card that keeps its own link and entries. It runs the link's task on packets, and the F check alone, through the lent forms, and prints what comes
// of each. The expected lines are worked out by hand from 001, Figure 2.
#![tactic(auto)]

mod says;

use fractions::Rate;
use lent::After;
use links::{Entry, Link, Mu, Place};
use says::Said;
use std::io;
use tasks::{Eta, Kind, Tau};

fn idle(num: u64, den: u64) -> Entry {
    Entry {
        mu: Mu::Idle,
        rate: Rate { num, den },
    }
}

// A card with these words of R and F, and these entries.
fn card_of(capacity: u64, r: u32, f: u32, entries: [Entry; 32]) -> Place {
    Place {
        link: Link { capacity, r, f },
        entries,
    }
}

// The link's task on a packet of session s, under a title: the card is link 0.
fn packet(rt: &impl Print, title: &str, card: Place, s: u32, kind: Kind) -> io::Result<Place> {
    let After {
        link,
        entries,
        answer,
    } = lent::step_link_plain(0, s, kind, card.link, card.entries);
    rt.print(title)?;
    print!(rt; " {}", Said(answer))?;
    let next = Place { link, entries };
    says::place(rt, next)?;
    Ok(next)
}

// The F check alone.
fn check(rt: &impl Print, title: &str, card: Place) -> io::Result<()> {
    let After {
        link,
        entries,
        answer,
    } = lent::f_check_plain(card.link, card.entries);
    rt.print(title)?;
    print!(rt; " {}", Said(answer))?;
    says::place(rt, Place { link, entries })
}

// Session 0 joins, and has the whole link.
fn first_session(rt: &impl Print, card: Place) -> io::Result<Place> {
    let a = packet(
        rt,
        "join of 0:",
        card,
        0,
        Kind::Join(Rate::whole(100), Eta::Own),
    )?;
    packet(
        rt,
        "response to 0:",
        a,
        0,
        Kind::Response(Tau::Response, Rate::whole(10), Eta::Link(0)),
    )
}

// Session 1 joins, which can use no more than 3, and goes to F.
fn second_session(rt: &impl Print, card: Place) -> io::Result<Place> {
    let a = packet(
        rt,
        "join of 1:",
        card,
        1,
        Kind::Join(Rate::whole(3), Eta::Own),
    )?;
    let b = packet(
        rt,
        "response to 1:",
        a,
        1,
        Kind::Response(Tau::Response, Rate::whole(3), Eta::Own),
    )?;
    packet(rt, "set bottleneck of 1:", b, 1, Kind::SetBottleneck(false))
}

// Session 0 asks again and gets what is left.
fn first_again(rt: &impl Print, card: Place) -> io::Result<Place> {
    let a = packet(
        rt,
        "probe of 0:",
        card,
        0,
        Kind::Probe(Rate::whole(100), Eta::Own),
    )?;
    packet(
        rt,
        "response to 0:",
        a,
        0,
        Kind::Response(Tau::Response, Rate::whole(7), Eta::Link(0)),
    )
}

// A packet of a session that is not there, and a leave.
fn last_packets(rt: &impl Print, card: Place) -> io::Result<Place> {
    let a = packet(
        rt,
        "update of 2, which is not there:",
        card,
        2,
        Kind::Update,
    )?;
    packet(rt, "leave of 0:", a, 0, Kind::Leave)
}

// Of F with 5 and 3 the 5 returns first, and then B is above 3. A member of F with exactly B returns.
fn checks(rt: &impl Print) -> io::Result<()> {
    let mut a = lent::no_entries();
    a[0] = idle(5, 1);
    a[1] = idle(3, 1);
    a[2] = idle(9, 1);
    check(rt, "F check of 5 and 3:", card_of(10, 4, 3, a))?;
    check(rt, "F check of exactly B:", card_of(10, 2, 1, a))
}

// Refusal 12 leaves the card as it was.
fn too_fine(rt: &impl Print) -> io::Result<()> {
    let mut a = lent::no_entries();
    a[0] = idle(1, 1048576);
    check(
        rt,
        "F check with a B that is too fine:",
        card_of(1, 6, 1, a),
    )?;
    packet(
        rt,
        "a join that makes it too fine:",
        card_of(1, 2, 1, a),
        2,
        Kind::Join(Rate::whole(1), Eta::Own),
    )?;
    Ok(())
}

// So does refusal 14: a field out of its range.
fn out_of_range(rt: &impl Print) -> io::Result<()> {
    let mut a = lent::no_entries();
    packet(
        rt,
        "a packet of session 32:",
        card_of(1, 2, 1, a),
        32,
        Kind::Leave,
    )?;
    packet(
        rt,
        "a join with a rate of 2/2:",
        card_of(1, 2, 1, a),
        2,
        Kind::Join(Rate { num: 2, den: 2 }, Eta::Own),
    )?;
    a[3] = idle(2, 2);
    check(rt, "F check with a rate of 2/2:", card_of(1, 2, 1, a))
}

// A capacity over 1,000,000, and the highest that is taken.
fn too_wide(rt: &impl Print) -> io::Result<()> {
    let a = lent::no_entries();
    packet(
        rt,
        "leave of 0, capacity 1000001:",
        card_of(1000001, 1, 0, a),
        0,
        Kind::Leave,
    )?;
    packet(
        rt,
        "leave of 0, capacity 1000000:",
        card_of(1000000, 1, 0, a),
        0,
        Kind::Leave,
    )?;
    Ok(())
}

// A session in both R and F, and the same link with it in F alone.
fn not_apart(rt: &impl Print) -> io::Result<()> {
    let mut a = lent::no_entries();
    a[0] = idle(3, 1);
    a[1] = idle(7, 1);
    packet(
        rt,
        "leave of 1, 0 in R and F:",
        card_of(10, 3, 1, a),
        1,
        Kind::Leave,
    )?;
    packet(
        rt,
        "leave of 1, 0 in F:",
        card_of(10, 2, 1, a),
        1,
        Kind::Leave,
    )?;
    check(rt, "F check, 0 in R and F:", card_of(10, 3, 1, a))?;
    check(rt, "F check, 0 in F:", card_of(10, 2, 1, a))
}

// An F that sums past C, and one that sums to C.
fn past_c(rt: &impl Print) -> io::Result<()> {
    let mut a = lent::no_entries();
    a[0] = idle(5, 1);
    a[1] = idle(6, 1);
    packet(
        rt,
        "update of 2, F sums to 11 of 10:",
        card_of(10, 4, 3, a),
        2,
        Kind::Update,
    )?;
    check(rt, "F check, F sums to 11 of 10:", card_of(10, 4, 3, a))?;
    a[1] = idle(5, 1);
    packet(
        rt,
        "update of 2, F sums to 10 of 10:",
        card_of(10, 4, 3, a),
        2,
        Kind::Update,
    )?;
    check(rt, "F check, F sums to 10 of 10:", card_of(10, 4, 3, a))
}

// A B that is too fine before the packet comes, and one that is just fine. A session in both R and F comes before a B that is too fine.
fn fine_before(rt: &impl Print) -> io::Result<()> {
    let mut a = lent::no_entries();
    a[0] = idle(1, 1048576);
    packet(
        rt,
        "leave of 1, B too fine before:",
        card_of(1, 6, 1, a),
        1,
        Kind::Leave,
    )?;
    packet(
        rt,
        "leave of 1, B 1048575/1048576 before:",
        card_of(1, 2, 1, a),
        1,
        Kind::Leave,
    )?;
    check(
        rt,
        "F check, 0 in R and F and B too fine:",
        card_of(1, 3, 1, a),
    )
}

// A sum that is too fine: 14 before a packet, 12 of the F check. And one that is fine.
fn sum_before(rt: &impl Print) -> io::Result<()> {
    let mut a = lent::no_entries();
    a[0] = idle(1, 1048576);
    a[1] = idle(1, 1048575);
    packet(
        rt,
        "update of 2, which is not there, sum too fine:",
        card_of(1, 0, 3, a),
        2,
        Kind::Update,
    )?;
    check(rt, "F check, sum too fine:", card_of(1, 0, 3, a))?;
    a[1] = idle(1, 1048576);
    packet(
        rt,
        "update of 2, which is not there, sum fine:",
        card_of(1, 0, 3, a),
        2,
        Kind::Update,
    )?;
    Ok(())
}

fn main(rt: HostRuntime) -> io::Result<()> {
    let a = card_of(10, 0, 0, lent::no_entries());
    let b = first_session(&rt, a)?;
    let c = second_session(&rt, b)?;
    let d = first_again(&rt, c)?;
    last_packets(&rt, d)?;
    checks(&rt)?;
    too_fine(&rt)?;
    out_of_range(&rt)?;
    too_wide(&rt)?;
    not_apart(&rt)?;
    past_c(&rt)?;
    fine_before(&rt)?;
    sum_before(&rt)
}
