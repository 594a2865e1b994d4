//! What no clause says: that a board is opened where there is memory. Beside it a meeting and a delay.

use crate::{Board, Delayed};
use hc_frac::Frac;
use hc_list::FixedList;
use hc_term::{Meeting, Offer, Phase, Post};
use std::test::Fail;

fn offering(offer: Offer) -> Post {
    let mut offers = FixedList::new();
    offers.push(offer);
    Post {
        phase: Phase::Arrived,
        bound: None,
        due: None,
        moving: FixedList::new(),
        offers,
    }
}

fn waiting(bound: Frac) -> Post {
    Post {
        phase: Phase::Arrived,
        bound: Some(bound),
        due: Some(bound),
        moving: FixedList::new(),
        offers: FixedList::new(),
    }
}

#[test]
fn two_meet_and_one_waits(rt: HostRuntime) -> Result<(), Fail> {
    let zero = Frac::zero();
    let two = Frac::new(2, 1).ok_or("2 fits")?;
    let three = Frac::new(3, 1).ok_or("3 fits")?;
    let mut board = Board::open(rt.alloc(), 3, 2)?;
    assert_eq!(rt; board.least_able(), Some(0));
    board.post(
        0,
        &offering(Offer::Send {
            channel: 1,
            at: two,
            slope: zero,
        }),
    );
    board.post(1, &waiting(two));
    board.post(2, &offering(Offer::Receive { channel: 1 }));
    assert_eq!(rt; board.ready()[0], 2);
    assert_eq!(rt; board.least_able(), None);
    assert_eq!(rt;
        board.fire(),
        Some(Meeting {
            channel: 1,
            sender: 0,
            receiver: 2,
            value: two
        })
    );
    assert_eq!(rt; board.ready()[0], 0);
    assert_eq!(rt; board.deadlines().len(), 1);
    assert_eq!(rt; board.fire(), None);
    assert_eq!(rt; board.delay(zero, three), Delayed::Took(two));
    assert_eq!(rt; board.deadlines().len(), 0);
    assert_eq!(rt; board.is_able(0), true);
    assert_eq!(rt; board.is_able(3), false);
    assert_eq!(rt; board.posts().len(), 3);
    Ok(())
}
