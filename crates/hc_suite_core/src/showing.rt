//! What a process did and what it shows, as items of an answer.

use hc_rows::{put_item, put_number, put_word};
use hc_step::Stretch;
use hc_term::{Offer, Post, StretchEnd};
use std::alloc::AllocError;

/// How a stretch ended, and after how many steps.
pub(crate) fn put_stretch(text: &mut String, stretch: &Stretch) -> Result<(), AllocError> {
    match &stretch.end {
        StretchEnd::Logged(value) => {
            put_item(text, "log")?;
            put_word(text, value.text().as_str())?;
        }
        StretchEnd::Waits => put_item(text, "waits")?,
        StretchEnd::Ended => put_item(text, "ended")?,
        StretchEnd::Unfit => put_item(text, "unfit")?,
        StretchEnd::Spent => put_item(text, "spent")?,
    }
    put_word(text, "by")?;
    put_number(text, u64::from(stretch.steps))
}

/// A communication that is offered.
fn put_offer(text: &mut String, offer: &Offer) -> Result<(), AllocError> {
    match offer {
        Offer::Send { channel, at, slope } => {
            put_item(text, "sends")?;
            put_number(text, u64::from(*channel))?;
            put_word(text, at.text().as_str())?;
            if slope.is_zero() {
                return Ok(());
            }
            put_word(text, "slope")?;
            put_word(text, slope.text().as_str())
        }
        Offer::Receive { channel } => {
            put_item(text, "receives")?;
            put_number(text, u64::from(*channel))
        }
    }
}

/// What a process shows to the others.
pub(crate) fn put_post(text: &mut String, post: &Post) -> Result<(), AllocError> {
    if let Some(bound) = post.bound {
        put_item(text, "bound")?;
        put_word(text, bound.text().as_str())?;
    }
    if let Some(due) = post.due {
        put_item(text, "due")?;
        put_word(text, due.text().as_str())?;
    }
    for moving in post.moving.as_slice() {
        put_item(text, "moves")?;
        put_number(text, u64::from(moving.variable))?;
        put_word(text, moving.at.text().as_str())?;
        put_word(text, moving.rate.text().as_str())?;
    }
    for offer in post.offers.as_slice() {
        put_offer(text, offer)?;
    }
    Ok(())
}
