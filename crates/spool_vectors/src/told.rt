//! How the rows of this crate tell orders, what is answered to them, and the rows of a spool.
use row_tables::{Field, Row, Words};
use span_io::{Blob, Form, Items};
use span_spool::{Keeper, Kept, Order, Reply};
use std::alloc::Global;
use std::test::Fail;

// The order in a text, and behind `=>` what is answered to it, if it is carried out.
fn sides(text: &str) -> (&str, Option<&str>) {
    match text.split_once("=>") {
        Some((order, answer)) => (order.trim_matches(' '), Some(answer.trim_matches(' '))),
        None => (text, None),
    }
}

fn is_order(field: &Field) -> bool {
    matches!(field.key(), "keep" | "first" | "drop")
}

fn form_of(row: &Row, word: &str) -> Result<Form, Fail> {
    match Form::of_word(word.as_bytes()) {
        Some(form) => Ok(form),
        None => Err(row.fail("no form", word)),
    }
}

// The order to keep a body: a form, and behind a blank the bytes.
fn keep_of(alloc: Global, row: &Row, text: &str) -> Result<Order, Fail> {
    let (word, body) = text.split_once(' ').unwrap_or((text, ""));
    let form = form_of(row, word)?;
    let bytes = Vec::from_slice(alloc, body.as_bytes())?;
    Ok(Order::Keep(form, Blob::from_vec(bytes)))
}

fn order_of(alloc: Global, row: &Row, field: &Field) -> Result<Order, Fail> {
    let (text, _) = sides(field.text());
    match field.key() {
        "keep" => keep_of(alloc, row, text),
        "drop" => Ok(Order::Drop(row.number_in(text)?)),
        _ => Ok(Order::First),
    }
}

/// Appends the orders of a row.
pub(crate) fn append_orders(
    alloc: Global,
    row: &Row,
    orders: &mut Items<Order>,
) -> Result<(), Fail> {
    for field in row.fields() {
        if is_order(field) {
            orders.push(order_of(alloc, row, field)?)?;
        }
    }
    Ok(())
}

fn is_number(number: u64, word: &str) -> bool {
    matches!(word.parse::<u64>(), Ok(told) if told == number)
}

/// Whether a row of a spool is the one that a text tells: its number, its form and its bytes.
pub(crate) fn is_kept(kept: &Kept, text: &str) -> bool {
    let mut words = Words::of(text);
    is_number(kept.number, words.word())
        && Form::of_word(words.word().as_bytes()) == Some(kept.form)
        && words.rest().as_bytes() == kept.body.as_slice()
}

fn is_number_kept(number: u64, text: &str) -> bool {
    match text.strip_prefix("kept ") {
        Some(word) => is_number(number, word),
        None => false,
    }
}

fn is_reply(reply: &Reply, text: &str) -> bool {
    match reply {
        Reply::Kept(number) => is_number_kept(*number, text),
        Reply::Full => text == "full",
        Reply::Spent => text == "spent",
        Reply::First(None) => text == "none",
        Reply::First(Some(kept)) => is_kept(kept, text),
        Reply::Dropped(true) => text == "dropped",
        Reply::Dropped(false) => text == "stays",
    }
}

// Whether an order has the reply that is told, or none where none is told.
fn is_answer(reply: Option<&Reply>, field: &Field) -> bool {
    match (reply, sides(field.text()).1) {
        (Some(reply), Some(text)) => is_reply(reply, text),
        (None, None) => true,
        _ => false,
    }
}

/// Whether the orders of a row have these replies, one each, as far as the row tells one.
pub(crate) fn are_replies(row: &Row, replies: &[Reply]) -> bool {
    let mut left = replies.iter();
    for field in row.fields() {
        if is_order(field) && !is_answer(left.next(), field) {
            return false;
        }
    }
    left.next().is_none()
}

/// Whether these are the rows that are left.
pub(crate) fn are_left(row: &Row, rows: &[Kept]) -> bool {
    let mut rows = rows.iter();
    for field in row.fields() {
        if field.key() == "left"
            && !matches!(rows.next(), Some(kept) if is_kept(kept, field.text()))
        {
            return false;
        }
    }
    rows.next().is_none()
}

// Whether the first row is the one that is told, and leaves.
fn leaves_first<K: Keeper>(keeper: &mut K, text: &str) -> bool {
    let Ok(Some(kept)) = keeper.first() else {
        return false;
    };
    is_kept(&kept, text) && keeper.drop_first(kept.number) == Ok(true)
}

/// Whether those rows leave, one after the other, and none is left then.
pub(crate) fn leave<K: Keeper>(row: &Row, keeper: &mut K) -> bool {
    for field in row.fields() {
        if field.key() == "left" && !leaves_first(keeper, field.text()) {
            return false;
        }
    }
    keeper.size() == 0
}
