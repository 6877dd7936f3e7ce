// Lists that share their nodes: each call makes a new list and leaves its arguments as they were.
use crate::reading::row_of;
use exact_plane::Steps;
use shared_seq::SharedSeq;
use std::alloc::Global;
use std::sync::ledger::Ledger;

// A call with a place and a value, the list that it is made on, which a plus joins of two, and the list that it makes.
pub(crate) const CALLS: &str = "\
share 0 0 | 1 2 3 | 1 2 3
share 0 0 | 1 2 3 + 4 5 | 1 2 3 4 5
front 2 0 | 1 2 3 + 4 5 | 1 2
rest 2 0 | 1 2 3 + 4 5 | 3 4 5
split_front 2 0 | 1 2 3 | 1 2
split_rest 2 0 | 1 2 3 | 3
split_front 2 0 | 1 2 3 + 4 5 | 1 2
split_rest 2 0 | 1 2 3 + 4 5 | 3 4 5
take_then 2 9 | 1 2 3 + 4 5 | 1 2 9
then_skip 2 9 | 1 2 3 + 4 5 | 9 3 4 5
single 0 7 | 1 2 3 | 7
push_front 0 0 | 1 2 3 | 0 1 2 3
insert_at 1 9 | 1 2 3 | 1 9 2 3
set 1 9 | 1 2 3 | 1 9 3
remove_at 1 0 | 1 2 3 | 1 3
search 0 3 | 1 2 3 + 4 5 | 2 5
search 0 0 | 1 2 3 + 4 5 | 0 5
search 0 9 | 1 2 3 + 4 5 | 5 5";

// Whether the call makes the list, and leaves the one that it was made on.
pub(crate) fn is_made<L: Ledger>(alloc: Global, row: &str, steps: &mut Steps<L>) -> bool {
    if let Some((call, given, want)) = row_of(row)
        && let Some((word, at, value)) = call_of(call)
        && let Some(list) = list_of(alloc, given, steps)
        && let Some(made) = made_by(alloc, &list, word, at, value, steps)
    {
        has(&made, want, steps) && has(&list, given, steps)
    } else {
        false
    }
}

fn call_of(call: &str) -> Option<(&str, usize, u32)> {
    if let Some((word, numbers)) = call.split_once(' ')
        && let Some((at, value)) = numbers.split_once(' ')
        && let Ok(at) = at.parse()
        && let Ok(value) = value.parse()
    {
        Some((word, at, value))
    } else {
        None
    }
}

fn list_of<L: Ledger>(alloc: Global, text: &str, steps: &mut Steps<L>) -> Option<SharedSeq> {
    match text.split_once(" + ") {
        Some((left, right)) => joined_of(alloc, left, right, steps),
        None => pushed(alloc, text, steps),
    }
}

// Both lists joined, if that leaves them as they were.
fn joined_of<L: Ledger>(
    alloc: Global,
    left: &str,
    right: &str,
    steps: &mut Steps<L>,
) -> Option<SharedSeq> {
    if let Some(front) = pushed(alloc, left, steps)
        && let Some(back) = pushed(alloc, right, steps)
        && let Some(joined) = join(alloc, &front, &back, steps)
        && has(&front, left, steps)
        && has(&back, right, steps)
    {
        Some(joined)
    } else {
        None
    }
}

fn join<L: Ledger>(
    alloc: Global,
    front: &SharedSeq,
    back: &SharedSeq,
    steps: &mut Steps<L>,
) -> Option<SharedSeq> {
    if front.len() > 1 << 20 || back.len() > 1 << 20 {
        return None;
    }
    SharedSeq::join(alloc, front, back, steps).ok()
}

// The list of these numbers, each pushed at the back.
fn pushed<L: Ledger>(alloc: Global, numbers: &str, steps: &mut Steps<L>) -> Option<SharedSeq> {
    let mut list = SharedSeq::empty();
    for word in numbers.split(' ') {
        list = push(alloc, &list, word.parse().ok()?, steps)?;
    }
    Some(list)
}

fn push<L: Ledger>(
    alloc: Global,
    list: &SharedSeq,
    value: u32,
    steps: &mut Steps<L>,
) -> Option<SharedSeq> {
    if list.len() > 1 << 20 {
        return None;
    }
    list.push_back(alloc, value, steps).ok()
}

fn made_by<L: Ledger>(
    alloc: Global,
    list: &SharedSeq,
    word: &str,
    at: usize,
    value: u32,
    steps: &mut Steps<L>,
) -> Option<SharedSeq> {
    if at >= list.len() || list.len() > 1 << 20 {
        return None;
    }
    match word {
        "share" => list.share().ok(),
        "front" => list.take(alloc, at, steps).ok(),
        "rest" => list.skip(alloc, at, steps).ok(),
        "split_front" => {
            let (front, _) = list.split_at(alloc, at, steps).ok()?;
            Some(front)
        }
        "split_rest" => {
            let (_, rest) = list.split_at(alloc, at, steps).ok()?;
            Some(rest)
        }
        "take_then" => list.take_then(alloc, at, value, steps).ok(),
        "then_skip" => list.then_skip(alloc, at, value, steps).ok(),
        "single" => SharedSeq::single(alloc, value, steps).ok(),
        "push_front" => list.push_front(alloc, value, steps).ok(),
        "insert_at" => list.insert_at(alloc, at, value, steps).ok(),
        "set" => list.set(alloc, at, value, steps).ok(),
        "remove_at" => list.remove_at(alloc, at, steps).ok(),
        "search" => searched(alloc, list, value, steps),
        _ => None,
    }
}

// How many values of a list that rises are below this one, and its last value.
fn searched<L: Ledger>(
    alloc: Global,
    list: &SharedSeq,
    value: u32,
    steps: &mut Steps<L>,
) -> Option<SharedSeq> {
    let mut search = list.search();
    let last = search.last(steps)?;
    while let Some(halves) = search.halves(steps) {
        search = if halves.value < value {
            halves.after
        } else {
            halves.before
        };
    }
    let place = u32::try_from(search.low()).ok()?;
    let below = SharedSeq::single(alloc, place, steps).ok()?;
    push(alloc, &below, last, steps)
}

// Whether the list has these numbers, with no plus between them.
fn has<L: Ledger>(list: &SharedSeq, want: &str, steps: &mut Steps<L>) -> bool {
    let mut count = 0;
    for word in want.split(' ') {
        if word != "+" {
            if count >= list.len() || word.parse() != Ok(list.get(count, steps)) {
                return false;
            }
            count += 1;
        }
    }
    count == list.len()
}

const LONG: usize = 10_000;

// Ten thousand numbers, from 0 on, split at each multiple of a thousand and joined again.
pub(crate) fn is_joined_again<L: Ledger>(alloc: Global, steps: &mut Steps<L>) -> Option<bool> {
    let mut list = SharedSeq::empty();
    for i in 0..LONG as u32 {
        list = push(alloc, &list, i, steps)?;
    }
    for thousand in 0..11 {
        if !is_joined_at(alloc, &list, thousand * 1_000, steps)? {
            return None;
        }
    }
    Some(counts(&list, steps))
}

fn is_joined_at<L: Ledger>(
    alloc: Global,
    list: &SharedSeq,
    at: usize,
    steps: &mut Steps<L>,
) -> Option<bool> {
    if at > list.len() {
        return None;
    }
    let (front, back) = list.split_at(alloc, at, steps).ok()?;
    let joined = join(alloc, &front, &back, steps)?;
    Some(front.len() == at && counts(&joined, steps))
}

// Whether the list has ten thousand numbers, from 0 on.
fn counts<L: Ledger>(list: &SharedSeq, steps: &mut Steps<L>) -> bool {
    if list.len() != LONG {
        return false;
    }
    for i in 0..LONG {
        if list.get(i, steps) as usize != i {
            return false;
        }
    }
    true
}
